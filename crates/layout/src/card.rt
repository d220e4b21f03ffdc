// A card of bytes, and what its header says of them.
ghost use Rattle.layout.specs.GoodLayout.{GoodLayout};

use meaning::Layout;

// A card whose layout is known, and is where its bytes say: rows 1 to 4 of the refusal table have passed.
#[derive(Clone, Copy)]
pub struct Card<'a> {
    pub bytes: &'a [u8],
    pub layout: Layout,
    ghost good: { GoodLayout layout bytes.now },
}
