// What ties what is of one line together.
use std::marker::Brand;

/// Which queue is before the drive of a number, and of which run that drive is. Each run of a
/// daemon picks it for all its lines: what has this parameter and one number is of one line.
pub trait Naming {
    ghost use Rattle.std.specs.Prelude.{ℕ};
    ghost use Rattle.atomic_table.specs.Seated.{TableId};

    ghost table: { ℕ → TableId };

    ghost time: { ℕ → ℕ };
}

impl Naming for Brand {
    ghost use Rattle.sd_line.specs.Side.{no_table};

    ghost table = { λ no. no_table };

    ghost time = { λ no. 0 };
}
