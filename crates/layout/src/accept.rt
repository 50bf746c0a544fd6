// The intake: nine questions, and the floor of a layout that answers all of them yes.
ghost use Rattle.layout.specs.Checked.{Checked};
ghost use Rattle.layout.specs.Intake.{Taken};

use crate::counts::Counts;
use crate::divided::Divided;
use crate::draft::Draft;
use crate::fault::LayoutFault;
use crate::layout_floor::LayoutFloor;
use crate::refused::Refused;
use crate::shape::check_shape;

// All questions, in order; where all are answered yes, how the layout divides.
fn check(layout: &[u8]) -> Result<Counts, LayoutFault>
    ensures { Checked layout.now result }
{
    let divided = Divided {
        layout,
        counts: check_shape(layout)?,
    };
    divided.read_records()?;
    Draft { divided }.check_low()?;
    Ok(divided.counts)
}

// The floor of the layout, or the first fault with the bytes handed back.
pub fn intake(layout: Vec<u8>) -> Result<LayoutFloor, Refused>
    ensures { Taken layout result }
{
    // Stays: both arms take the bytes, and of two closures only one could.
    match check(layout.as_slice()) {
        Ok(counts) => Ok(LayoutFloor::new(layout, counts)),
        Err(fault) => Err(Refused { fault, layout }),
    }
}
