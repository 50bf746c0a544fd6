// A sample layout: six places, seven legs, one goal.
ghost use Rattle.std.specs.Prelude.{◌≡◌};
ghost use Rattle.layout.specs.Sample.{six_records, SixPlaces};

use crate::encode::{encode_leg, encode_place};

// The records of the sample; and what the intake makes of them and of two copies with another low estimate at place 2.
pub fn six_places() -> [[u8; 16]; 13]
    ensures records { result ≡ six_records 3 }
    ensures means { SixPlaces }
{
    [
        encode_place(false, 0, 4, 6, 3),
        encode_place(false, 2, 4, 5, 2),
        encode_place(false, 3, 3, 8, 2),
        encode_place(false, 5, 2, 3, 1),
        encode_place(false, 6, 1, 1, 1),
        encode_place(true, 7, 0, 0, 0),
        encode_leg(1, 2),
        encode_leg(2, 1),
        encode_leg(3, 2),
        encode_leg(3, 5),
        encode_leg(4, 4),
        encode_leg(5, 3),
        encode_leg(5, 1),
    ]
}
