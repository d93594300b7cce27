//! A mark for each request that there may be.
ghost use Rattle.std.specs.Prelude.{◌≡◌, [], IfOk, false};
ghost use Rattle.vp_classes.specs.Marks.{mark, IsThere, Sets, no_marks};

use crate::request::IoRequest;
use ids_base::memory::Memory;
use std::alloc::Global;

/// Which requests are queued.
#[derive(Drop)]
pub struct Marks {
    pub log_flush: bool,
    pub clear_file: bool,
    pub phys_flush: bool,
    pub checkpoint: bool,
    pub pages: Vec<bool>,
    pub frames: Vec<bool>,
}

impl Marks {
    /// No request is marked. Answers `Memory` where there is none for the marks.
    pub fn new(alloc: Global, pages: u32, frames: u32) -> Result<Self, Memory>
        ensures { IfOk result (λ m. no_marks m pages frames) }
    {
        Ok(Self {
            log_flush: false,
            clear_file: false,
            phys_flush: false,
            checkpoint: false,
            pages: vec![in alloc; false; pages as usize]?,
            frames: vec![in alloc; false; frames as usize]?,
        })
    }

    /// Whether a request is marked.
    pub fn get(&self, request: IoRequest) -> bool
        requires { IsThere self.now request }
        ensures { result ≡ mark self.now request }
    {
        match request {
            IoRequest::LogFlush => self.log_flush,
            IoRequest::ClearFile => self.clear_file,
            IoRequest::PhysFlush => self.phys_flush,
            IoRequest::Page(page) => self.pages[page as usize - 1],
            IoRequest::Clean(frame) => self.frames[frame as usize],
            IoRequest::Checkpoint => self.checkpoint,
        }
    }

    /// Sets or clears the mark of a request.
    pub fn set(&mut self, request: IoRequest, to: bool)
        requires { IsThere self.old request }
        ensures { Sets self.old self.new request to }
    {
        match request {
            IoRequest::LogFlush => self.log_flush = to,
            IoRequest::ClearFile => self.clear_file = to,
            IoRequest::PhysFlush => self.phys_flush = to,
            IoRequest::Page(page) => self.pages[page as usize - 1] = to,
            IoRequest::Clean(frame) => self.frames[frame as usize] = to,
            IoRequest::Checkpoint => self.checkpoint = to,
        }
    }
}
