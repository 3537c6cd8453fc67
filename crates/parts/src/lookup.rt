// Where a binder's type stands.
ghost use Rattle.std.specs.Prelude.{◌≡◌};
ghost use Rattle.words.specs.Lookup.{part_of, PartWithin};

// "A binder's type stands either in the proof's words or in the workspace": a part of one of the two.
pub fn lookup<'a>(
    proof: &'a [u32],
    held: &'a [u32],
    in_held: bool,
    start: usize,
    end: usize,
) -> &'a [u32]
    requires { PartWithin proof.now held.now in_held start end }
    ensures { result.now ≡ part_of proof.now held.now in_held start end }
{
    if in_held {
        &held[start..end]
    } else {
        &proof[start..end]
    }
}
