//! What kinds of dependence are: laws, stated by the contracts of functions that do nothing.

ghost use Rattle.graph_text.specs.Kinds.{DependencesHaveKinds, KindsAreDependences, KindsExclude};

/// Each dependence of a loop has a kind.
pub fn dependences_have_kinds()
    ensures { DependencesHaveKinds }
{}

/// What has a kind is a dependence of the loop.
pub fn kinds_are_dependences()
    ensures { KindsAreDependences }
{}

/// No dependence has two kinds, where operations take 1 to 64 cycles.
pub fn kinds_exclude()
    ensures { KindsExclude }
{}
