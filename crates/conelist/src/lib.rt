// The list of cones (document 01, "The list and its buffers" and "Refusal numbers"): its records, and the refusals of a call on one cone of it.
// Ported from nothing: the crate has no list of its own, and its cones own their buffers.
#![tactic(auto, using(answers::proofs::Laws::ranks))]

ghost use Rattle.std.specs.Prelude.{◌≡◌, ◌+◌, leb};
ghost use Rattle.answers.specs.Refusal.{number_in, ◌⊳◌, unlike};
ghost use Rattle.conelist.specs.Layout.{dim, least_dim, block_dim, carried, counted_of, misplaced, spot_of};

use answers::Refusal;

// ---- the records

#[derive(Clone, Copy)]
pub enum Kind {
    Nonnegative(usize),
    SecondOrder(usize),
}

impl Kind {
    pub fn dim(self) -> usize
        ensures { result ≡ dim self }
    {
        match self {
            Kind::Nonnegative(n) => n,
            Kind::SecondOrder(n) => n,
        }
    }

    // The least dimension that is in range.
    pub fn least_dim(self) -> usize
        ensures { result ≡ least_dim self }
    {
        match self {
            Kind::Nonnegative(n) => 0,
            Kind::SecondOrder(n) => 2,
        }
    }

    // How long its block is.
    pub fn block_dim(self) -> usize
        ensures { result ≡ block_dim self }
    {
        match self {
            Kind::Nonnegative(n) => n,
            Kind::SecondOrder(n) => if 4 < n { n } else { n * (n + 1) / 2 },
        }
    }
}

#[derive(Clone, Copy)]
pub struct Cone {
    pub start: usize,
    pub kind: Kind,
}

// Where a cone lies: the refusal that finding it met (0: none), its index, its start and kind, and where its block begins; then how many
// entries, cones and block numbers the list has. `conewalk::place_of` makes one. Any other is refused with 4 as far as that can be told
// (`misplaced`), and is else taken at its word. So the refusal stays a number: a made-up place may carry any, and one above 4 counts as 4 (`carried`,
// must-fail/spec_unknown_number_is_none).
#[derive(Clone, Copy)]
pub struct Place {
    pub no: u8,
    pub index: usize,
    pub start: usize,
    pub kind: Kind,
    pub block: usize,
    pub entries: usize,
    pub count: usize,
    pub blocks: usize,
}

// ---- a place that is handed to a call

// Whether n numbers from `at` on lie within `all`.
fn within(at: usize, n: usize, all: usize) -> bool
    ensures { result ≡ leb (at + n) all }
{
    if all < n { false } else { at <= all - n }
}

impl Place {
    // The refusal that it carries; a number above 4 is no list's.
    #[tactic(auto, using(std::proofs::lemmas::Bool::Decides::nat_tests), unfolding(crate::specs::Layout::carried))]
    pub fn check_carried(self) -> Result<(), Refusal>
        ensures { number_in result ≡ carried self }
    {
        match self.no {
            0 => Ok(()),
            1 => Err(Refusal::Dimension),
            2 => Err(Refusal::Size),
            3 => Err(Refusal::Start),
            _ => Err(Refusal::Cone),
        }
    }

    // Whether its counts are in range.
    fn counted(self) -> bool
        ensures { result ≡ counted_of self }
    {
        (self.count <= 256) & (self.entries <= 65536) & (self.blocks <= 196608)
    }

    // A place that no list gives, as far as that can be told.
    fn check_inside(self) -> Result<(), Refusal>
        ensures { number_in result ≡ misplaced self }
    {
        let kind = self.kind;
        let n = kind.dim();
        let least = kind.least_dim();
        let entries = within(self.start, n, self.entries);
        let block = within(self.block, kind.block_dim(), self.blocks);
        if (least <= n)
            & (n <= 4096)
            & entries
            & (self.index < self.count)
            & block
            & self.counted()
        {
            Ok(())
        } else {
            Err(Refusal::Cone)
        }
    }

    // The refusals of a place: the list's, then its own.
    pub fn check_spot(self) -> Result<(), Refusal>
        ensures { number_in result ≡ spot_of self }
    {
        self.check_carried()?;
        self.check_inside()
    }

    // The refusals of a call over a place: 1 to 4, then 5, where `same` says that each slice has its length.
    pub fn check(self, same: bool) -> Result<(), Refusal>
        ensures { number_in result ≡ spot_of self ⊳ unlike same }
    {
        self.check_spot()?;
        answers::check_length(same)
    }
}
