// What lines ask for.
ghost use Rattle.qm_line.specs.Asked.{AskByListings};

/// Of a node's turns a line asks by the listings alone that they have begun.
pub fn lines_ask_by_listings()
    ensures { AskByListings }
{}
