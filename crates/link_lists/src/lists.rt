//! Lists of ids, as callers see them.
ghost use Rattle.std.specs.Prelude.{◌≡◌, ◌≢◌, ℕ, ◌+◌, ◌<◌, ◌≤◌, [], ◌∷◌, ◌++◌, true, false, Some, None, IsSome, IfOk, OnOk, OnErr, MatchOption};
ghost use Rattle.link_lists.specs.Lists.{list_at, home_at, list_count, id_count, ListBecomes, HomeBecomes, SameCounts, SameLists, put_before, without, first_of, behind, IsSound};

use crate::web::{HEAD, Web};
use ids_base::memory::Memory;
use std::alloc::Global;
use std::marker::Model;

/// A fixed number of doubly linked lists of ids, all over one slab. Contracts see the list of lists of ids, and for each id
/// the list that it is in. An id is in at most one list, and stands there once.
///
/// Only `new` and `add_id` take memory. Each call but these two takes constant time.
#[derive(Drop)]
pub struct Lists {
    web: Web,
}

impl Model for Lists {
    ghost use Rattle.link_lists.specs.Lists.{Lists as Shown, lists_code};

    ghost Value = { Shown };

    ghost coded = { lists_code };

    ghost use Rattle.link_lists.specs.Rings.{seen, IsLinkedWell};

    ghost view = { λ s. seen s.web };

    ghost invariant = { λ s. IsLinkedWell s.web };
}

impl Lists {
    /// So many empty lists, and no id. It takes time and memory in proportion to the number of lists; `Memory` where there is none.
    pub fn new(alloc: Global, lists: u32) -> Result<Lists, Memory>
        requires { lists ≤ 2147483648 }
        ensures lists { IfOk result (λ v. list_count v ≡ lists) }
        ensures empty { IfOk result (λ v. (l : ℕ) → list_at v l ≡ []) }
        ensures no_ids { IfOk result (λ v. id_count v ≡ 0) }
        ensures sound { IfOk result (λ v. IsSound v) }
    {
        Ok(Lists {
            web: Web::new(alloc, lists)?,
        })
    }

    /// One id more, in no list: the number of ids before. `Memory` where there is none, and all is then as it was. It takes constant
    /// time, but where it takes memory: then time in proportion to the ids and lists.
    pub fn add_id(&mut self) -> Result<u32, Memory>
        requires { id_count self.old < 2147483648 }
        ensures id { IfOk result (λ id. id ≡ id_count self.old) }
        ensures more { OnOk result (id_count self.new ≡ id_count self.old + 1) }
        ensures err { OnErr result (id_count self.new ≡ id_count self.old) }
        ensures lists { list_count self.new ≡ list_count self.old }
        ensures same { SameLists self.old self.new }
        ensures homes { (x : ℕ) → home_at self.new x ≡ home_at self.old x }
        ensures sound { IsSound self.new }
    {
        self.web.add_id()
    }

    /// How many lists there are: they are numbered from 0.
    pub fn list_count(&self) -> u32
        ensures { result ≡ list_count self.now }
    {
        self.web.lists
    }

    /// How many ids there are: they are numbered from 0.
    pub fn id_count(&self) -> u32
        ensures { result ≡ id_count self.now }
    {
        self.web.ids
    }

    /// The list that an id is in, if it is in one.
    pub fn home(&self, id: u32) -> Option<u32>
        requires { id < id_count self.now }
        ensures home { result ≡ home_at self.now id }
        ensures sound { IsSound self.now }
    {
        self.web.home(id)
    }

    /// The first id of a list, if there is one.
    pub fn front(&self, list: u32) -> Option<u32>
        requires { list < list_count self.now }
        ensures front { result ≡ first_of (list_at self.now list) }
        ensures sound { IsSound self.now }
    {
        let first = self.web.next(HEAD + list);
        if first < HEAD { Some(first) } else { None }
    }

    /// The id behind another in its list, if there is one.
    pub fn next(&self, id: u32) -> Option<u32>
        requires { IsSome (home_at self.now id) }
        ensures next { (l : ℕ) → home_at self.now id ≡ Some l → result ≡ behind id (list_at self.now l) }
    {
        let next = self.web.next(id);
        if next < HEAD { Some(next) } else { None }
    }

    /// Puts an id that is in no list at the end of a list.
    pub fn push_back(&mut self, list: u32, id: u32)
        requires list { list < list_count self.old }
        requires there { id < id_count self.old }
        requires free { home_at self.old id ≡ None }
        ensures list { ListBecomes self.old self.new list (list_at self.old list ++ id ∷ []) }
        ensures home { HomeBecomes self.old self.new id (Some list) }
        ensures counts { SameCounts self.old self.new }
        ensures sound { IsSound self.new }
    {
        self.web.link_before(HEAD + list, id, list);
    }

    /// Puts an id that is in no list at the front of a list.
    pub fn push_front(&mut self, list: u32, id: u32)
        requires list { list < list_count self.old }
        requires there { id < id_count self.old }
        requires free { home_at self.old id ≡ None }
        ensures list { ListBecomes self.old self.new list (id ∷ list_at self.old list) }
        ensures home { HomeBecomes self.old self.new id (Some list) }
        ensures counts { SameCounts self.old self.new }
        ensures sound { IsSound self.new }
    {
        let first = self.web.next(HEAD + list);
        self.web.link_before(first, id, list);
    }

    /// Puts an id that is in no list right before another, which is in one.
    pub fn insert_before(&mut self, next: u32, id: u32)
        requires next { IsSome (home_at self.old next) }
        requires there { id < id_count self.old }
        requires free { home_at self.old id ≡ None }
        ensures list { (l : ℕ) → home_at self.old next ≡ Some l → ListBecomes self.old self.new l (put_before next id (list_at self.old l)) }
        ensures home { HomeBecomes self.old self.new id (home_at self.old next) }
        ensures counts { SameCounts self.old self.new }
        ensures sound { IsSound self.new }
    {
        match self.web.home(next) {
            Some(list) => self.web.link_before(next, id, list),
            None => unreachable!(),
        }
    }

    /// Takes an id out of the list that it is in.
    pub fn unlink(&mut self, id: u32)
        requires { IsSome (home_at self.old id) }
        ensures list { (l : ℕ) → home_at self.old id ≡ Some l → ListBecomes self.old self.new l (without id (list_at self.old l)) }
        ensures home { HomeBecomes self.old self.new id None }
        ensures counts { SameCounts self.old self.new }
        ensures sound { IsSound self.new }
    {
        self.web.take_out(id);
    }

    /// Moves an id to the end of the list that it is in.
    pub fn move_to_back(&mut self, id: u32)
        requires { IsSome (home_at self.old id) }
        ensures list { (l : ℕ) → home_at self.old id ≡ Some l → ListBecomes self.old self.new l (without id (list_at self.old l) ++ id ∷ []) }
        ensures homes { (x : ℕ) → home_at self.new x ≡ home_at self.old x }
        ensures counts { SameCounts self.old self.new }
        ensures sound { IsSound self.new }
    {
        match self.home(id) {
            Some(list) => {
                self.unlink(id);
                self.push_back(list, id);
            }
            None => unreachable!(),
        }
    }

    /// Takes out the first id of a list, and answers it; none exactly where the list is empty.
    pub fn pop_front(&mut self, list: u32) -> Option<u32>
        requires { list < list_count self.old }
        ensures front { result ≡ first_of (list_at self.old list) }
        ensures empty { result ≡ None → self.new ≡ self.old }
        ensures list { (id : ℕ) → result ≡ Some id → ListBecomes self.old self.new list (without id (list_at self.old list)) }
        ensures home { (id : ℕ) → result ≡ Some id → HomeBecomes self.old self.new id None }
        ensures counts { SameCounts self.old self.new }
        ensures sound { IsSound self.new }
    {
        let first = self.front(list)?;
        self.unlink(first);
        Some(first)
    }
}

#[cfg(test)]
mod tests {
    use super::*;
    use std::process::Abort;
    use std::test::Fail;

    // The ids of a list, from its front on, each as a decimal digit.
    fn digits(rt: &impl Abort, lists: &Lists, list: u32) -> u64 {
        assert!(rt; list < lists.list_count());
        let mut number = 0u64;
        let mut at = lists.front(list);
        for _ in 0..10 {
            if let Some(id) = at {
                assert!(rt; number < 100000000 && id < 10 && id < lists.id_count());
                assert!(rt; lists.home(id).is_some());
                number = number * 10 + u64::from(id);
                at = lists.next(id);
            }
        }
        number
    }

    fn made(rt: &impl Abort, alloc: Global, lists: u32, ids: u32) -> Result<Lists, Memory> {
        assert!(rt; lists < 8);
        let mut made = Lists::new(alloc, lists)?;
        for _ in 0..ids {
            assert!(rt; made.id_count() < 8);
            made.add_id()?;
        }
        Ok(made)
    }

    // An id that may be put into the list.
    fn assert_free(rt: &impl Abort, lists: &Lists, list: u32, id: u32)
        ensures list { list < list_count lists.now }
        ensures there { id < id_count lists.now }
        ensures free { home_at lists.now id ≡ None }
    {
        assert!(rt; list < lists.list_count() && id < lists.id_count());
        assert_eq!(rt; lists.home(id), None);
    }

    // An id that is in a list.
    fn assert_in(rt: &impl Abort, lists: &Lists, id: u32)
        ensures { IsSome (home_at lists.now id) }
    {
        assert!(rt; id < lists.id_count());
        assert!(rt; lists.home(id).is_some());
    }

    fn back(rt: &impl Abort, lists: &mut Lists, list: u32, id: u32) {
        assert_free(rt, lists, list, id);
        lists.push_back(list, id);
    }

    #[test]
    fn puts_ids(rt: HostRuntime) -> Result<(), Fail> {
        let mut lists = made(&rt, rt.alloc(), 2, 6)?;
        assert_eq!(rt; lists.list_count(), 2);
        assert_eq!(rt; lists.id_count(), 6);
        back(&rt, &mut lists, 0, 1);
        back(&rt, &mut lists, 0, 2);
        assert_free(&rt, &lists, 0, 3);
        lists.push_front(0, 3);
        assert_eq!(rt; digits(&rt, &lists, 0), 312);
        assert_in(&rt, &lists, 2);
        assert_free(&rt, &lists, 0, 4);
        lists.insert_before(2, 4);
        assert_eq!(rt; digits(&rt, &lists, 0), 3142);
        assert_in(&rt, &lists, 3);
        assert_free(&rt, &lists, 0, 5);
        lists.insert_before(3, 5);
        assert_eq!(rt; digits(&rt, &lists, 0), 53142);
        Ok(())
    }

    #[test]
    fn takes_ids(rt: HostRuntime) -> Result<(), Fail> {
        let mut lists = made(&rt, rt.alloc(), 2, 6)?;
        for id in 1..5 {
            back(&rt, &mut lists, 0, id);
        }
        assert_in(&rt, &lists, 2);
        lists.move_to_back(2);
        assert_eq!(rt; digits(&rt, &lists, 0), 1342);
        assert_in(&rt, &lists, 4);
        lists.unlink(4);
        back(&rt, &mut lists, 1, 4);
        assert!(rt; lists.id_count() == 6);
        assert_eq!(rt; lists.home(4), Some(1));
        assert_eq!(rt; digits(&rt, &lists, 0), 132);
        assert_eq!(rt; digits(&rt, &lists, 1), 4);
        assert!(rt; lists.list_count() == 2);
        assert_eq!(rt; lists.pop_front(0), Some(1));
        assert_eq!(rt; digits(&rt, &lists, 0), 32);
        Ok(())
    }

    #[test]
    fn empties_a_list(rt: HostRuntime) -> Result<(), Fail> {
        let mut lists = made(&rt, rt.alloc(), 1, 1)?;
        back(&rt, &mut lists, 0, 0);
        assert!(rt; lists.list_count() == 1);
        assert_eq!(rt; lists.pop_front(0), Some(0));
        assert!(rt; lists.list_count() == 1);
        assert_eq!(rt; lists.pop_front(0), None);
        assert_free(&rt, &lists, 0, 0);
        Ok(())
    }
}
