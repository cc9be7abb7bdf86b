//! What memmove and memcmp do, said without their definitions. That the image's words do it follows, since they make the stays.
ghost use Rattle.kern_mem.specs.MoveLaws.{MemmoveMoves, MemcmpTells};

/// memmove leaves at its destination the bytes that its source had before, also where the two overlap. It does nothing.
pub fn memmove_moves()
    ensures { MemmoveMoves }
{}

/// memcmp answers 0 exactly where the bytes are the same. It does nothing.
pub fn memcmp_tells()
    ensures { MemcmpTells }
{}
