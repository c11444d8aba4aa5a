// The kinds of call that a plan counts apart.
ghost use Rattle.std.specs.Prelude.{◌≡◌, ◌<◌};
ghost use Rattle.sd_plan.specs.Kinds.{Kinds};

/// How many kinds of call a plan has room for.
pub const MOST_KINDS: usize = 7;

/// The kinds of call of a device or a store. Each has a place of its own among the counts of a plan.
pub trait Kind: Copy + Send {
    ghost kinds: { Kinds Self };

    /// The place of the count of this kind.
    fn place(self) -> usize
        ensures place { result ≡ kinds.place self }
        ensures within { result < MOST_KINDS };

    /// Whether a call of this kind appends bytes, so that half of it may be done.
    fn is_append(self) -> bool
        ensures { result ≡ kinds.appends self };
}
