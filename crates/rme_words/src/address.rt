//! The addresses of the words that survive a crash.

/// One shared 64-bit word, by its purpose. All words are 0 initially.
///
/// `worker` is below the shape's workers, `lock` below its locks, `cell` below its cells, `node` is 1 up to one less
/// than its leaves, `operation` is 0 to 7 and `part` 0 to 2.
///
/// | Word | What its value means | Who stores it |
/// |---|---|---|
/// | `Begun(worker)` | how many jobs the worker has begun | the worker, as the last store of a post |
/// | `Done(worker)` | the last number that is finished or withdrawn | the worker, as the last store of a section, and
/// when it withdraws |
/// | `Reply(worker)`, `Place(worker)`, `At(worker)` | the receipt of number `Done`, a receipt only while `Done` is
/// `Begun`; place 2^64-1 says that the number was withdrawn | the worker, before that store of `Done` |
/// | `SlateLock(worker)`, `SlateLen(worker)`, `SlateWord(worker, operation, part)` | the job of number `Begun`: its
/// lock, how many operations it has, and three words for each | the worker, before its store of `Begun` |
/// | `Node(lock, node)` | 0 free, 1 held by its left side, 2 held by its right side | the holder of the child on that
/// side |
/// | `Turn(lock)` | 2p: p sections are over and none is logged; 2p+1: the shadow words of section p are whole | the
/// lock's owner |
/// | `Cell(lock, cell)` | the cell itself | the lock's owner, from the shadow word |
/// | `Shadow(lock, cell)` | what section p leaves in the cell, for the mask's cells while `Turn` is 2p+1 | the lock's
/// owner, before that store of `Turn` |
/// | `ShadowReply(lock)` | the reply of section p, while `Turn` is 2p+1 | the lock's owner, before that store of `Turn`
/// |
/// | `Mask(lock)` | bit c stands for cell c: the cells that section p copies, while `Turn` is 2p+1 | the lock's owner,
/// before that store of `Turn` |
#[derive(Clone, Copy, PartialEq, Eq)]
pub enum Address {
    Begun(u32),
    Done(u32),
    Reply(u32),
    Place(u32),
    At(u32),
    SlateLock(u32),
    SlateLen(u32),
    SlateWord(u32, u32, u32),
    Node(u32, u32),
    Turn(u32),
    Cell(u32, u32),
    Shadow(u32, u32),
    ShadowReply(u32),
    Mask(u32),
}
