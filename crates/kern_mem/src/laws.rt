//! Laws of the calls' definitions: what a program may rest on, without a look at any code.
ghost use Rattle.kern_mem.specs.Laws.{MemsetFills, MemcpyCopies, ReadingKeeps, LongjmpComesBack};

/// Where memset returns and d isn't 0, the n bytes from d on are c, and all else is as before. It does nothing.
pub fn memset_fills()
    ensures { MemsetFills }
{}

/// Where memcpy returns, d and s aren't 0 and no byte belongs to both ranges, the n bytes from d on are those that s had, and all else is as before. It does nothing.
pub fn memcpy_copies()
    ensures { MemcpyCopies }
{}

/// Calls that only read leave everything as it is but r2, pc, k0 and k1, and the user's memory also where they stop. It does nothing.
pub fn reading_keeps()
    ensures { ReadingKeeps }
{}

/// Behind a setjmp, longjmp of the same buffer gives back its 12 registers, goes on where setjmp returned to, and answers v, in any later state that has the words of the buffer as they were.
/// It does nothing.
pub fn longjmp_comes_back()
    ensures { LongjmpComesBack }
{}
