// What files that were read show.
ghost use Rattle.std.specs.Prelude.{◌≡◌, None, Ok, IfOk};
ghost use Rattle.qm_model.specs.Rows.{view};
ghost use Rattle.qm_image.specs.Refusing.{Refuses};

use crate::restored::Restored;
use qm_disk::Disk;
use qm_image::Refused;
use qm_kinds::Query;
use qm_rows::Rows;
use qm_view::view;

impl<D: Disk> Restored<D> {
    ghost use Rattle.qm_acting.specs.Standing.{restored_standing};

    /// The rows that a query asks for, but none of the queue manager: no node is. It is refused where the entry that is asked for
    /// isn't there, where no queue is named whose entries are asked for, and where rows are asked for one by one and none is left.
    pub fn view(&self, query: &Query) -> Result<Rows, Refused>
        ensures rows { IfOk result (λ rows.
            view (restored_standing self.now).system None query.now ≡ Ok rows) }
        ensures refused { Refuses result (view (restored_standing self.now).system None query.now) }
    {
        view(self.alloc, &self.image, query)
    }
}
