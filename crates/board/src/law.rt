//! What the rule over words and views means: for a machine of one thread, and for what is left to draw.
ghost use Rattle.std.specs.Prelude.{List, ℕ};
ghost use Rattle.board.specs.declared.view.View.{View};
ghost use Rattle.board.specs.declared.view.Terms.{Terms};
ghost use Rattle.board.specs.Core.{Event, core_run, core_opening};
ghost use Rattle.board.specs.Rule.{Rule};
ghost use Rattle.board.specs.Events.{IsMadeOf, StandsFor, AnswersAs};
ghost use Rattle.board.specs.Drawing.{DryLeavesNothing, DrewPiecesIsWet, DrawsCount, DrawsAscend, DrawsEnd};

/// Wherever words and views meet the rule, the words stand for the state that a machine of one thread
/// comes to by any list of events whose draws and posts are just those of all views, in whatever order.
/// What a step finds in its word is then what the machine answers the event. It does nothing.
pub fn words_follow_events()
    ensures state { (terms : Terms) (words : List ℕ) (views : List View) (events : List Event)
        → Rule terms words views → IsMadeOf events views
        → StandsFor terms.loops words (core_run core_opening events) }
    ensures answers { (terms : Terms) (words : List ℕ) (views : List View) (events : List Event)
        → Rule terms words views → IsMadeOf events views
        → AnswersAs terms.loops words (core_run core_opening events) }
{}

/// Wherever words and views meet the rule and some view is dry, each piece was drawn, and by one draw
/// alone: no piece is left to draw. It does nothing.
pub fn dry_leaves_nothing()
    ensures { DryLeavesNothing }
{}

/// A pass that drew pieces alone is not dry, and has drawn no more of them than there are. Its next draw
/// draws one number more, and a piece that it is answered is above all that it drew before. So one draw
/// more than there are pieces leaves no pass wet. It does nothing.
pub fn draws_end()
    ensures wet { DrewPiecesIsWet }
    ensures count { DrawsCount }
    ensures ascend { DrawsAscend }
    ensures end { DrawsEnd }
{}
