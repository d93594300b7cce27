//! The queues of the classes.
ghost use Rattle.std.specs.Prelude.{◌≡◌, ◌≢◌, ◌<◌, ◌++◌, ◌∷◌, [], ◌↔◌, ℕ, true, false, if◌then◌else◌, drop, slice_get, IfOk, IsTrue, MatchOption};
ghost use Rattle.std.specs.VecDeque.{deque_len, deque_capacity};
ghost use Rattle.vp_classes.specs.Asked.{IsInRange, IsTaken, queue, taker, is_queued, none_asked, asked, next_of, taken};
ghost use Rattle.vp_classes.specs.Marks.{mark, IsThere, Sets};
ghost use Rattle.vp_classes.specs.Queued.{HeadIsThere};

use crate::marks::Marks;
use crate::request::IoRequest;
use ids_base::class::Class;
use ids_base::memory::Memory;
use std::alloc::Global;
use std::collections::VecDeque;
use std::marker::Model;

/// The requests that were asked for and not yet taken. Each stands in its class's queue once.
///
/// For each request there is a mark that says whether it is queued, so that asking costs constant time, and the queues never
/// grow past the room that they are made with.
#[derive(Drop)]
pub struct Requests {
    lio: VecDeque<IoRequest>,
    pio: VecDeque<IoRequest>,
    aio: VecDeque<IoRequest>,
    marks: Marks,
}

impl Model for Requests {
    ghost use Rattle.vp_classes.specs.Asked.{Asked};

    ghost Value = { Asked };

    ghost use Rattle.vp_classes.specs.Queued.{asked_of, IsKept};

    ghost view = { asked_of };

    ghost invariant = { IsKept };
}

impl Requests {
    /// Every queue empty, for data pages 1 to `pages` and frames below `frames`.
    ///
    /// Takes room for a request for each page, one for each frame and one of each other kind, and time in proportion to
    /// it; no later call takes any. Answers `Memory` where there is none.
    pub fn new(alloc: Global, pages: u32, frames: u32) -> Result<Self, Memory>
        ensures { IfOk result (λ r. r ≡ none_asked pages frames) }
    {
        let lio = VecDeque::with_capacity(alloc, 2)?;
        let pio = VecDeque::with_capacity(alloc, 1)?;
        let aio = VecDeque::with_capacity(alloc, pages as usize + frames as usize + 1)?;
        let marks = Marks::new(alloc, pages, frames)?;
        Ok(Self {
            lio,
            pio,
            aio,
            marks,
        })
    }

    /// How many data pages there are. Takes constant time.
    pub fn pages(&self) -> usize
        ensures { result ≡ self.now.pages }
    {
        self.marks.pages.len()
    }

    /// How many frames there are. Takes constant time.
    pub fn frames(&self) -> usize
        ensures { result ≡ self.now.frames }
    {
        self.marks.frames.len()
    }

    /// Whether a class has a request. Takes constant time.
    pub fn has_request(&self, class: Class) -> bool
        ensures { IsTrue result ↔ (queue self.now class ≢ []) }
    {
        match class {
            Class::Cpu => false,
            Class::Lio => !self.lio.is_empty(),
            Class::Pio => !self.pio.is_empty(),
            Class::Aio => !self.aio.is_empty(),
        }
    }

    /// Whether a request stands in the queue of the class that takes it. Takes constant time.
    pub fn is_queued(&self, request: IoRequest) -> bool
        requires { IsInRange self.now request }
        ensures { result ≡ is_queued request (queue self.now (taker request)) }
    {
        self.marks.get(request)
    }

    /// Asks a class for a piece of work, which goes to the end of the class's queue. A request that stands there already
    /// stays where it is, and nothing changes. Takes constant time, and no memory.
    pub fn ask(&mut self, class: Class, request: IoRequest)
        requires { IsTaken self.old class request }
        ensures { self.new ≡ asked self.old class request }
    {
        match class {
            Class::Cpu => {}
            Class::Lio => put(&mut self.lio, &mut self.marks, request),
            Class::Pio => put(&mut self.pio, &mut self.marks, request),
            Class::Aio => put(&mut self.aio, &mut self.marks, request),
        }
    }

    /// Takes the request at the head of a class's queue, and None exactly where the class has none. Takes constant time,
    /// and no memory.
    pub fn next(&mut self, class: Class) -> Option<IoRequest>
        ensures head { result ≡ next_of self.old class }
        ensures rest { self.new ≡ taken self.old class }
    {
        match class {
            Class::Cpu => None,
            Class::Lio => take(&mut self.lio, &mut self.marks),
            Class::Pio => take(&mut self.pio, &mut self.marks),
            Class::Aio => take(&mut self.aio, &mut self.marks),
        }
    }
}

/// Puts a request behind the others and marks it, unless it is marked already.
fn put(queue: &mut VecDeque<IoRequest>, marks: &mut Marks, request: IoRequest)
    requires there { IsThere marks.old request }
    requires room { mark marks.old request ≡ false → deque_len queue.old < deque_capacity queue.old }
    ensures queued { queue.new.items
        ≡ (if mark marks.old request then queue.old.items else queue.old.items ++ request ∷ []) }
    ensures capacity { deque_capacity queue.new ≡ deque_capacity queue.old }
    ensures marked { Sets marks.old marks.new request true }
{
    if !marks.get(request) {
        queue.push_back_reserved(request);
    }
    marks.set(request, true);
}

/// Takes the first request, and clears its mark.
fn take(queue: &mut VecDeque<IoRequest>, marks: &mut Marks) -> Option<IoRequest>
    requires { HeadIsThere marks.old queue.old.items }
    ensures head { result ≡ slice_get queue.old.items 0 }
    ensures rest { queue.new.items ≡ drop 1 queue.old.items }
    ensures capacity { deque_capacity queue.new ≡ deque_capacity queue.old }
    ensures marked { MatchOption result (marks.new ≡ marks.old) (λ r. Sets marks.old marks.new r false) }
{
    let request = queue.pop_front()?;
    marks.set(request, false);
    Some(request)
}

#[cfg(test)]
mod tests {
    use super::*;
    use std::test::Fail;

    /// Requests of all kinds come back in the order in which they were asked for, each once.
    #[test]
    fn comes_in_order(rt: HostRuntime) -> Result<(), Fail> {
        let mut requests = Requests::new(rt.alloc(), 3, 2)?;
        requests.ask(Class::Aio, IoRequest::Page(3));
        requests.ask(Class::Aio, IoRequest::Clean(0));
        requests.ask(Class::Aio, IoRequest::Page(3));
        requests.ask(Class::Aio, IoRequest::Checkpoint);
        requests.ask(Class::Lio, IoRequest::LogFlush);
        requests.ask(Class::Aio, IoRequest::Page(1));
        requests.ask(Class::Lio, IoRequest::ClearFile);
        requests.ask(Class::Pio, IoRequest::PhysFlush);
        requests.ask(Class::Lio, IoRequest::LogFlush);
        let wanted = [
            (Class::Aio, Some(IoRequest::Page(3))),
            (Class::Aio, Some(IoRequest::Clean(0))),
            (Class::Aio, Some(IoRequest::Checkpoint)),
            (Class::Aio, Some(IoRequest::Page(1))),
            (Class::Aio, None),
            (Class::Lio, Some(IoRequest::LogFlush)),
            (Class::Lio, Some(IoRequest::ClearFile)),
            (Class::Lio, None),
            (Class::Pio, Some(IoRequest::PhysFlush)),
            (Class::Pio, None),
            (Class::Cpu, None),
        ];
        assert!(rt; requests.is_queued(IoRequest::Page(3)));
        assert!(rt; !requests.is_queued(IoRequest::Page(2)));
        for (class, request) in wanted {
            assert_eq!(rt; requests.has_request(class), request.is_some());
            assert_eq!(rt; requests.next(class), request);
        }
        assert_eq!(rt; (requests.pages(), requests.frames()), (3, 2));
        requests.ask(Class::Aio, IoRequest::Page(3));
        assert_eq!(rt; requests.next(Class::Aio), Some(IoRequest::Page(3)));
        Ok(())
    }

    /// One thousand calls beside a plain list.
    #[test]
    fn agrees_with_list(rt: HostRuntime) -> Result<(), Fail> {
        let mut requests = Requests::new(rt.alloc(), 5, 5)?;
        let mut list = Vec::new(rt.alloc());
        let mut draw = 12345u32;
        for _ in 0..1000 {
            draw = draw.wrapping_mul(1103515245).wrapping_add(12345) % 2147483648;
            let number = draw / 65536 % 5;
            let request = if draw / 1048576 % 2 == 0 {
                IoRequest::Page(number + 1)
            } else {
                IoRequest::Clean(number)
            };
            if draw / 8388608 % 3 == 0 {
                let first = if list.is_empty() {
                    None
                } else {
                    Some(list.remove(0))
                };
                assert_eq!(rt; requests.next(Class::Aio), first);
            } else {
                assert!(rt; (number as usize) < requests.pages());
                assert!(rt; (number as usize) < requests.frames());
                requests.ask(Class::Aio, request);
                if !list.contains(&request) {
                    list.push(request)?;
                }
            }
        }
        Ok(())
    }
}
