// What the answers of calls have in common: the refusals, each with its number and its place. What 4 to 7 mean, and their places,
// is specs/GrammarRefusals; what a lent buffer holds after an answer is specs/Buffers. When each is given is said by the calls.
#![tactic(auto)]

ghost use Rattle.std.specs.Prelude.{◌≡◌};
ghost use Rattle.answers.specs.Refusals.{number_of, place_of};

// Every refusal of document 01, in the order of its numbers. What the place depends on is carried along.
#[derive(Clone, Copy, Debug, PartialEq, Eq)]
pub enum Refusal {
    NotVersionOne,
    BadLength { place: usize },
    TooShort { needed: usize },
    BrokenLayout { place: usize },
    NoTree { nonterminal: usize },
    Unreached { nonterminal: usize },
    Oversize { rule: usize },
    NotItsTable,
    FewMarks { rules: usize },
    DerivationShort { needed: usize },
    NoDerivation { place: usize },
    LongList { most: usize },
}

impl Refusal {
    // The column "No."
    pub fn number(self) -> u16
        ensures { result ≡ number_of self }
    {
        match self {
            Refusal::NotVersionOne => 1,
            Refusal::BadLength { .. } => 2,
            Refusal::TooShort { .. } => 3,
            Refusal::BrokenLayout { .. } => 4,
            Refusal::NoTree { .. } => 5,
            Refusal::Unreached { .. } => 6,
            Refusal::Oversize { .. } => 7,
            Refusal::NotItsTable => 8,
            Refusal::FewMarks { .. } => 9,
            Refusal::DerivationShort { .. } => 10,
            Refusal::NoDerivation { .. } => 11,
            Refusal::LongList { .. } => 12,
        }
    }

    // The column "Place".
    pub fn place(self) -> usize
        ensures { result ≡ place_of self }
    {
        match self {
            Refusal::NotVersionOne | Refusal::NotItsTable => 0,
            Refusal::BadLength { place }
            | Refusal::BrokenLayout { place }
            | Refusal::NoDerivation { place } => place,
            Refusal::TooShort { needed } | Refusal::DerivationShort { needed } => needed,
            Refusal::NoTree { nonterminal } | Refusal::Unreached { nonterminal } => nonterminal,
            Refusal::Oversize { rule } => rule,
            Refusal::FewMarks { rules } => rules,
            Refusal::LongList { most } => most,
        }
    }
}
