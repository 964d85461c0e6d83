// Laws about listings.
ghost use Rattle.std.specs.Prelude.{◌≡◌, true};
ghost use Rattle.qm_kinds.specs.declared.query.Listing.TheVariants.{Manager, Cancel};
ghost use Rattle.qm_model.specs.Laws.{NeverEnds, OfEachEnd, OfEachQuery};
ghost use Rattle.qm_model.specs.Listing.{IsOfOneEntry, rows_of};
ghost use Rattle.qm_model.specs.Rows.{view};

/// One entry that is asked for by its number is listed so whatever else the query says.
pub fn one_entry_is_listed()
    ensures { OfEachQuery (λ s manager q. IsOfOneEntry q → view s manager q ≡ rows_of s q) }
{}

/// No more rows are told of a listing that is read row by row, and never of the queue manager or of a cancel.
pub fn listings_end_by_name()
    ensures listing { OfEachEnd (λ q what. what ≡ q.listing) }
    ensures single { OfEachEnd (λ q what. q.single ≡ true) }
    ensures no_manager { NeverEnds Manager }
    ensures no_cancel { NeverEnds Cancel }
{}
