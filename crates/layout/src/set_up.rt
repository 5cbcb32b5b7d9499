ghost use Rattle.std.specs.Prelude.{◌≡◌, ◌≤◌, true};
ghost use Rattle.layout.specs.Limits.{stripe_count};

mod limits;

// How an engine is set up: its threads, its stripes, how many low bits of an address do not pick a stripe, and how far its clock goes.
#[derive(Clone, Copy)]
pub struct SetUp {
    threads: u32,
    stripes: u32,
    shift: u32,
    limit: u32,
    ghost some: { 1 ≤ threads },
    ghost eight: { threads ≤ 8 },
    ghost powers: { stripe_count stripes ≡ true },
    ghost narrow: { shift ≤ 8 },
    ghost ticks: { 1 ≤ limit },
    ghost fits: { limit ≤ 2147483647 },
}
