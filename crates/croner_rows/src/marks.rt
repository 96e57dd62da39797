//! Who makes the calls of a question.

use std::alloc::Global;
use std::io::Write;

/// Who makes the calls of a question: the runtime, the allocator for them, and whether there are marks before and after them on
/// standard error, for a program that refuses their requests for memory.
#[derive(Clone, Copy)]
pub struct Caller<'r> {
    pub rt: &'r HostRuntime,
    pub alloc: Global,
    is_marking: bool,
}

impl<'r> Caller<'r> {
    /// A caller that makes no marks.
    pub fn new(rt: &'r HostRuntime) -> Caller<'r> {
        let (alloc, is_marking) = (rt.alloc(), false);
        Caller {
            rt,
            alloc,
            is_marking,
        }
    }

    /// The caller that makes marks.
    pub fn with_marks(self) -> Caller<'r> {
        Caller {
            is_marking: true,
            ..self
        }
    }

    /// The caller that makes no marks.
    pub fn without_marks(self) -> Caller<'r> {
        Caller {
            is_marking: false,
            ..self
        }
    }

    /// From here on requests are counted, and one may be refused.
    pub fn begin(self) {
        self.mark("begin\n");
    }

    /// From here on no request is counted or refused.
    pub fn end(self) {
        self.mark("end\n");
    }

    // If a mark can't be written, whoever counts will miss it.
    fn mark(self, text: &str) {
        if self.is_marking {
            let _ = self.rt.stderr().write_all(text.as_bytes());
        }
    }
}
