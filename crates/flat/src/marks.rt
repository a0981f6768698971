ghost use Rattle.std.specs.Prelude.{◌≡◌, ◌/◌, ◌<◌, length};
ghost use Rattle.flat.specs.Flat.{marked, with_mark, without_mark};

/// How many blocks a byte of the map marks.
pub(super) const MARKS_A_BYTE: usize = 8;

// All three ask that the map has the block, which their caller has just shown: a type over a map that is lent for
// one call would be no shorter.

/// Whether the map says that a block is damaged.
pub(super) fn is_marked(damage: &[u8], block: usize) -> bool
    requires { block / 8 < length damage.now }
    ensures { result ≡ marked damage.now block }
{
    (damage[block / MARKS_A_BYTE] >> (block % MARKS_A_BYTE)) & 1 == 1
}

/// Marks a block damaged.
pub(super) fn mark(damage: &mut [u8], block: usize)
    requires { block / 8 < length damage.old }
    ensures { damage.new ≡ with_mark damage.old block }
{
    damage[block / MARKS_A_BYTE] |= 1 << (block % MARKS_A_BYTE);
}

/// Marks a block sound.
pub(super) fn unmark(damage: &mut [u8], block: usize)
    requires { block / 8 < length damage.old }
    ensures { damage.new ≡ without_mark damage.old block }
{
    damage[block / MARKS_A_BYTE] &= !(1 << (block % MARKS_A_BYTE));
}
