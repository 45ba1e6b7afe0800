//! What documents promise: a law, stated by the contract of a function that does nothing.

ghost use Rattle.listing_json.specs.Joined.{DocumentsAreJoined};

/// The document of a listing is that of the objects of its loops, whoever writes them.
pub fn documents_are_joined()
    ensures { DocumentsAreJoined }
{}
