//! The ruled scale: equal marks, D to each 1.
ghost use Rattle.std.specs.Prelude.{◌≡◌, ◌<◌, ◌≤◌};

pub mod works;

/// The ruled scale with a division D from 1 to 65,536: the code c has the place c / D if that is from -2,147,483,647 to 2,147,483,647, else an infinite one.
#[derive(Clone, Copy)]
pub struct RuledScale {
    division: u32,
    ghost ok: { (0 < division) × (division ≤ 65536) },
}
