//! What is counted in a run.

ghost use Rattle.std.specs.Prelude.{◌≡◌, ◌<◌, Some, slice_get, option_map};
ghost use Rattle.line_map.specs.Sizes.{Sizes};
ghost use Rattle.op_model.specs.Run.Counts.{all_counts};
ghost use Rattle.op_model.specs.Run.CountPlaces.{place_of};

/// What is counted in a run, in the order in which it is printed. `docs/texts.md` says what each one counts.
#[derive(Clone, Copy, Debug, PartialEq, Eq)]
pub enum Count {
    Events,
    Hits,
    Issues,
    Local,
    EvictWb,
    EvictHint,
    EvictSilent,
    TakeGet,
    TakeGetX,
    TakeFwdGet,
    TakeFwdGetX,
    TakeInv,
    TakeWb,
    TakeRpl,
    TakePut,
    TakePutX,
    TakeNak,
    TakeInvAck,
    TakeShWb,
    TakeFAck,
    TakeNakc,
    NakPending,
    NakNoLink,
    NakBudget,
    NakGone,
    Reclaims,
    Marked,
}

impl Count {
    /// All counts, each at its place.
    pub const ALL: [Count; 27] = [
        Count::Events,
        Count::Hits,
        Count::Issues,
        Count::Local,
        Count::EvictWb,
        Count::EvictHint,
        Count::EvictSilent,
        Count::TakeGet,
        Count::TakeGetX,
        Count::TakeFwdGet,
        Count::TakeFwdGetX,
        Count::TakeInv,
        Count::TakeWb,
        Count::TakeRpl,
        Count::TakePut,
        Count::TakePutX,
        Count::TakeNak,
        Count::TakeInvAck,
        Count::TakeShWb,
        Count::TakeFAck,
        Count::TakeNakc,
        Count::NakPending,
        Count::NakNoLink,
        Count::NakBudget,
        Count::NakGone,
        Count::Reclaims,
        Count::Marked,
    ];

    /// The count at a place, from 0.
    pub fn at(place: u32) -> Count
        requires { place < 27 }
        ensures { place_of result ≡ place }
    {
        Count::ALL[place as usize]
    }

    /// The place among all counts, from 0.
    pub fn index(self) -> u32
        ensures value { result ≡ place_of self }
        ensures below { result < 27 }
    {
        self as u32
    }

    /// The name that is printed.
    pub fn name(self) -> &'static str
        ensures { (sizes : Sizes) → option_map (λ count. count.name) (slice_get (all_counts sizes) (place_of self)) ≡ Some result.now }
    {
        match self {
            Count::Events => "events",
            Count::Hits => "hits",
            Count::Issues => "issues",
            Count::Local => "local",
            Count::EvictWb => "evict-wb",
            Count::EvictHint => "evict-hint",
            Count::EvictSilent => "evict-silent",
            Count::TakeGet => "take-get",
            Count::TakeGetX => "take-getx",
            Count::TakeFwdGet => "take-fwdget",
            Count::TakeFwdGetX => "take-fwdgetx",
            Count::TakeInv => "take-inv",
            Count::TakeWb => "take-wb",
            Count::TakeRpl => "take-rpl",
            Count::TakePut => "take-put",
            Count::TakePutX => "take-putx",
            Count::TakeNak => "take-nak",
            Count::TakeInvAck => "take-invack",
            Count::TakeShWb => "take-shwb",
            Count::TakeFAck => "take-fack",
            Count::TakeNakc => "take-nakc",
            Count::NakPending => "nak-pending",
            Count::NakNoLink => "nak-nolink",
            Count::NakBudget => "nak-budget",
            Count::NakGone => "nak-gone",
            Count::Reclaims => "reclaims",
            Count::Marked => "marked",
        }
    }
}
