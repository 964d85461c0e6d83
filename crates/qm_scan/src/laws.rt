// Laws about listings.
ghost use Rattle.std.specs.Prelude.{◌≡◌, ◌≢◌, Option};
ghost use Rattle.qm_model.specs.Common.{Manager, Query, System, ManagerRole, view};

/// Which node is queue manager shows in the listing of the manager alone.
pub fn the_manager_shows_in_its_listing()
    ensures { (s : System) (one other : Option ManagerRole) (q : Query) → q.listing ≢ Manager
        → view s one q ≡ view s other q }
{}
