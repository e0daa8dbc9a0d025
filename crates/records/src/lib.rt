// The records of a list of cones, in either form: `Cone`, as a program has it, and three numbers, as C has it, the cone's start, its kind and its
// dimension. Of our own; nothing is ported.
#![tactic(auto, using(std::proofs::lemmas::Bool::Decides::nat_tests), unfolding(crate::specs::Record::kind_of, crate::specs::Record::cone_of))]

ghost use Rattle.std.specs.Prelude.{◌≡◌, List, map, refl};
ghost use Rattle.conelist.specs.declared.Cone.{Cone};
ghost use Rattle.records.specs.Record.{kind_of, cone_of, cones, each_itself};

use conelist::{Cone, Kind};

// What a row of such records is in document 01's list, so that one walk goes over a row in either form.
pub trait Record: Copy {
    ghost cone: { Self → Cone };

    ghost cones: { List Self → List Cone };

    // What each `impl` must prove: a row is the list of its records, one behind another.
    ghost each: { (row : List Self) → cones row ≡ map cone row };

    fn cone(self) -> Cone
        ensures { result ≡ cone self };
}

impl Record for Cone {
    ghost cone = { λ c. c };

    ghost cones = { λ row. row };

    ghost each = { each_itself };

    fn cone(self) -> Cone {
        self
    }
}

impl Record for [usize; 3] {
    ghost cone = { cone_of };

    ghost cones = { cones };

    ghost each = { λ row. refl };

    fn cone(self) -> Cone {
        Cone {
            start: self[0],
            kind: kind_of(self[1], self[2]),
        }
    }
}

// By C's numbers: kind 0 is nonnegative, 1 second-order; any other is refused as a dimension out of its range is.
pub fn kind_of(kind: usize, dimension: usize) -> Kind
    ensures { result ≡ kind_of kind dimension }
{
    match kind {
        0 => Kind::Nonnegative(dimension),
        1 => Kind::SecondOrder(dimension),
        _ => Kind::SecondOrder(0),
    }
}
