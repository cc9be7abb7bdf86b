//! What the copies of texts leave.
ghost use Rattle.kern_text.specs.CopyLaws.{StrcpyCopies};

/// strcpy(d, s) leaves the text of s at d with its zero, where the two don't overlap, and changes nothing else. It does nothing.
pub fn strcpy_copies()
    ensures { StrcpyCopies }
{}
