//! One session that runs a script over a store, statement by statement.
ghost use Rattle.std.specs.Prelude.{IsSome, vec_len, vec_capacity, ◌≡◌, ◌⊎◌, ◌+◌, ◌≤◌, ◌<◌, ◌^◌, ◌++◌, ℕ, true, List, [], ◌∷◌, length, IfOk, OnOk, OnErr, IfErr, Err, Some, None};
ghost use Rattle.std.specs.List.{AllByRecursion};
ghost use Rattle.ids_outside.specs.Counts.{Rose};
ghost use Rattle.ids_model.specs.declared.effect.Effect as effects;
ghost use Rattle.ids_model.specs.declared.journal.Committed as journals;
ghost use Rattle.ids_model.specs.Tables.{Tables, apply_all};
ghost use Rattle.ids_model.specs.Fits.{Fits};
ghost use Rattle.ids_model.specs.Served.{entry_unanswered};
ghost use Rattle.ids_engine.specs.Survival.{Done, Survives};
ghost use Rattle.ids_engine.specs.Journals.{done_of, done_by};
ghost use Rattle.ids_engine.specs.Stores.{IsStore, KeepsStore};
ghost use Rattle.ids_engine.specs.OutOfBlocks.{IsOutOfBlocks};
ghost use Rattle.ids_outside.specs.Images.{Image};

use ids_base::isolation::Isolation;
use ids_base::list::List;
use ids_base::memory::Memory;
use ids_base::plan::{DataStatement, Plan};
use ids_base::reply::Reply;
use ids_engine::journal_laws::transactions_join;
use ids_engine::store_laws::{kept_opens, kept_survives};
use ids_engine::{Changed, Store, StoreFault};
use ids_model::effect::Effect;
use ids_model::interpret::outcome_of;
use ids_model::journal::{Committed, DoneStatement, Given};
use ids_model::laws;
use ids_model::outcome::Outcome;
use ids_outside::Disk;
use std::alloc::Global;

/// An open transaction: its data statements, and what they did.
#[derive(Drop)]
pub(crate) struct Transaction {
    done: List<DoneStatement>,
    effects: List<Effect>,
}

/// A session with its store, its open transaction, the journal, and the replies that it was given.
#[derive(Drop)]
pub(crate) struct Runner {
    alloc: Global,
    store: Store,
    inside: Option<Transaction>,
    journal: Vec<Committed>,
    given: Vec<Given>,
}

impl Transaction {
    // Notes one more statement.
    fn note(&mut self, done: DoneStatement, effects: List<Effect>) -> Result<(), Memory>
        ensures { OnOk result (self.new ≡ record { done = self.old.done ++ done ∷ []; effects = self.old.effects ++ effects }) }
    {
        self.done.push(done)?;
        self.effects.append(effects)
    }
}

impl Runner {
    ghost use Rattle.ids_server.specs.Running.{IsOutcome, answered, committed, begin_by, taken_back, effects_of, Steps, Fails};
    ghost use Rattle.ids_server.specs.Runners.{running_of, KeepsRun, HasStore, Goes, HasNoRoom};

    /// A session that has not begun, over a store.
    pub(crate) fn new(alloc: Global, store: Store) -> Self
        ensures running { running_of result ≡ record { tables = store.tables; inside = None; journal = []; given = [] } }
        ensures store { result.store ≡ store }
    {
        Runner {
            alloc,
            store,
            inside: None,
            journal: Vec::new(alloc),
            given: Vec::new(alloc),
        }
    }

    /// The replies so far.
    pub(crate) fn given(&self) -> &[Given]
        ensures { result.now ≡ self.now.given.items }
    {
        &self.given
    }

    /// The journal, and the replies.
    pub(crate) fn into_parts(self) -> (List<Committed>, List<Given>)
        ensures journal { result.0 ≡ self.journal.items }
        ensures given { result.1 ≡ self.given.items }
    {
        (List::from_vec(self.journal), List::from_vec(self.given))
    }

    // The reply to the next statement.
    fn give(&mut self, reply: Reply) -> Result<(), Memory>
        requires room { length self.old.given.items + 1 < 2 ^ 32 }
        ensures ok { OnOk result (running_of self.new ≡ answered (running_of self.old) reply) }
        ensures err { OnErr result (running_of self.new ≡ running_of self.old) }
        ensures store { self.new.store ≡ self.old.store }
        ensures full { OnErr result (vec_capacity self.old.given ≤ vec_len self.old.given) }
    {
        self.given.push(Given {
            session: 1,
            number: self.given.len() as u32 + 1,
            reply,
            at: self.journal.len() as u64,
        })?;
        Ok(())
    }

    // An entry without effects, and the reply to its commit.
    fn commit_nothing(
        &mut self,
        done: List<DoneStatement>,
        moment: u64,
        reply: Reply,
    ) -> Result<(), Memory>
        requires room { length self.old.given.items + 1 < 2 ^ 32 }
        ensures ok { OnOk result (running_of self.new ≡ committed moment (running_of self.old) done [] reply) }
        ensures err { OnErr result (running_of self.new ≡ running_of self.old) }
        ensures store { self.new.store ≡ self.old.store }
    {
        self.journal.push(Committed {
            session: 1,
            done,
            effects: List::new(self.alloc),
            buffered: false,
            acked: Some(moment),
            flushed: None,
        })?;
        if self.give(reply).is_err() {
            self.journal.pop();
            return Err(Memory);
        }
        Ok(())
    }

    // Makes room for an entry and a reply.
    fn reserve(&mut self) -> Result<(), Memory>
        ensures same { (running_of self.new ≡ running_of self.old) × (self.new.store ≡ self.old.store) }
        ensures journal { OnOk result (vec_len self.new.journal < vec_capacity self.new.journal) }
        ensures given { OnOk result (vec_len self.new.given < vec_capacity self.new.given) }
    {
        self.journal.reserve(1)?;
        self.given.reserve(1)?;
        Ok(())
    }

    // Puts an entry into the journal, which has room for it.
    fn enter(&mut self, entry: Committed)
        requires room { vec_len self.old.journal < vec_capacity self.old.journal }
        ensures entered { self.new.journal.items ≡ self.old.journal.items ++ entry ∷ [] }
        ensures others { (self.new.store ≡ self.old.store) × (self.new.inside ≡ self.old.inside) × (self.new.given ≡ self.old.given) }
    {
        let _ = self.journal.push(entry);
    }

    // An entry that was flushed, and the reply to its commit, where there is room for both.
    fn acknowledge(
        &mut self,
        done: List<DoneStatement>,
        effects: List<Effect>,
        moment: u64,
        reply: Reply,
    )
        requires room { length self.old.given.items + 1 < 2 ^ 32 }
        requires journal { vec_len self.old.journal < vec_capacity self.old.journal }
        requires given { vec_len self.old.given < vec_capacity self.old.given }
        requires some { ¬ (effects ≡ []) }
        ensures running { running_of self.new ≡ committed moment (running_of self.old) done effects reply }
        ensures store { self.new.store ≡ self.old.store }
    {
        self.enter(Committed {
            session: 1,
            done,
            effects,
            buffered: false,
            acked: Some(moment),
            flushed: Some(moment),
        });
        let _ = self.give(reply);
    }

    // Commits the open transaction in the store, with an entry, and the reply to its commit.
    fn commit_changes<D: Disk>(
        &mut self,
        disk: &mut D,
        done: List<DoneStatement>,
        effects: List<Effect>,
        reply: Reply,
    ) -> Result<(), StoreFault>
        requires room { length self.old.given.items + 1 < 2 ^ 32 }
        requires store { IsStore ⊥ D.Disk self.old.store disk.old }
        requires some { ¬ (effects ≡ []) }

        ensures ok { OnOk result (running_of self.new ≡ committed (D.now disk.new) (running_of self.old) done effects reply) }
        ensures store { OnOk result (IsStore ⊥ D.Disk self.new.store disk.new) }
        ensures noted { OnOk result (self.new.store.undo ≡ []) }
        ensures kept { OnOk result ((since : ℕ) (base : Image) (found : Tables)
            → KeepsStore D.tells D.Disk since base found (done_of self.old.journal.items) effects self.old.store disk.old
            → KeepsStore D.tells D.Disk since base found (done_of self.new.journal.items) [] self.new.store disk.new) }
        ensures journal { OnErr result ((self.new.journal.items ≡ self.old.journal.items) ⊎ (self.new.journal.items ≡ self.old.journal.items ++ entry_unanswered 1 done effects None ∷ [])) }
        ensures given { OnErr result (self.new.given.items ≡ self.old.given.items) }
        ensures survives { OnErr result ((since : ℕ) (base : Image) (found : Tables)
            → KeepsStore D.tells D.Disk since base found (done_of self.old.journal.items) effects self.old.store disk.old
            → Survives D.now D.left_at since found (done_of self.new.journal.items) disk.new) }
        ensures out_of_blocks { result ≡ Err StoreFault.LogFull → (since : ℕ) (base : Image) (found : Tables)
            → KeepsStore D.tells D.Disk since base found (done_of self.old.journal.items) effects self.old.store disk.old
            → IsOutOfBlocks D.tells D.Disk since base found (done_of self.new.journal.items) self.new.store disk.new }
        ensures later { D.now disk.old ≤ D.now disk.new }
        ensures counted { D.fault_count disk.old ≤ D.fault_count disk.new }
        ensures disk_fault { result ≡ Err StoreFault.Disk → Rose (D.fault_count disk.old) (D.fault_count disk.new) }
    {
        transactions_join();
        kept_opens::<D>();
        kept_survives::<D>();
        self.reserve()?;
        match self.store.commit(disk) {
            Ok(()) => {
                self.acknowledge(done, effects, disk.moment(), reply);
                Ok(())
            }
            Err(StoreFault::Disk) => {
                self.enter(unanswered(done, effects));
                Err(StoreFault::Disk)
            }
            Err(StoreFault::Memory) => Err(StoreFault::Memory),
            Err(StoreFault::LogFull) => Err(StoreFault::LogFull),
        }
    }

    // Commits: what has no effects needs no flush.
    fn commit<D: Disk>(
        &mut self,
        disk: &mut D,
        done: List<DoneStatement>,
        effects: List<Effect>,
        reply: Reply,
    ) -> Result<(), StoreFault>
        requires room { length self.old.given.items + 1 < 2 ^ 32 }
        requires store { IsStore ⊥ D.Disk self.old.store disk.old }
        requires noted { self.old.store.undo ≡ effects }

        ensures ok { OnOk result (running_of self.new ≡ committed (D.now disk.new) (running_of self.old) done effects reply) }
        ensures store { OnOk result (IsStore ⊥ D.Disk self.new.store disk.new) }
        ensures noted { OnOk result (self.new.store.undo ≡ []) }
        ensures kept { OnOk result ((since : ℕ) (base : Image) (found : Tables)
            → KeepsStore D.tells D.Disk since base found (done_of self.old.journal.items) effects self.old.store disk.old
            → KeepsStore D.tells D.Disk since base found (done_of self.new.journal.items) [] self.new.store disk.new) }
        ensures journal { OnErr result ((self.new.journal.items ≡ self.old.journal.items) ⊎ (¬ (effects ≡ []) × (self.new.journal.items ≡ self.old.journal.items ++ entry_unanswered 1 done effects None ∷ []))) }
        ensures given { OnErr result (self.new.given.items ≡ self.old.given.items) }
        ensures survives { OnErr result ((since : ℕ) (base : Image) (found : Tables)
            → KeepsStore D.tells D.Disk since base found (done_of self.old.journal.items) effects self.old.store disk.old
            → Survives D.now D.left_at since found (done_of self.new.journal.items) disk.new) }
        ensures out_of_blocks { result ≡ Err StoreFault.LogFull → (since : ℕ) (base : Image) (found : Tables)
            → KeepsStore D.tells D.Disk since base found (done_of self.old.journal.items) effects self.old.store disk.old
            → IsOutOfBlocks D.tells D.Disk since base found (done_of self.new.journal.items) self.new.store disk.new }
        ensures later { D.now disk.old ≤ D.now disk.new }
        ensures counted { D.fault_count disk.old ≤ D.fault_count disk.new }
        ensures disk_fault { result ≡ Err StoreFault.Disk → Rose (D.fault_count disk.old) (D.fault_count disk.new) }
    {
        transactions_join();
        kept_survives::<D>();
        if effects.is_empty() {
            Ok(self.commit_nothing(done, disk.moment(), reply)?)
        } else {
            self.commit_changes(disk, done, effects, reply)
        }
    }

    // Takes rows away, in order.
    fn take_rows<D: Disk>(&mut self, disk: &mut D, gone: &[Effect]) -> Result<(), StoreFault>
        requires store { IsStore ⊥ D.Disk self.old.store disk.old }
        requires fits { Fits self.old.store.tables gone.now }
        requires rows { AllByRecursion Goes gone.now }

        ensures running { OnOk result (running_of self.new ≡ record (running_of self.old) { tables = apply_all self.old.store.tables gone.now }) }
        ensures store { OnOk result (IsStore ⊥ D.Disk self.new.store disk.new) }
        ensures noted { OnOk result (self.new.store.undo ≡ self.old.store.undo ++ gone.now) }
        ensures kept { OnOk result ((since : ℕ) (base : Image) (found : Tables) (earlier : List Done) (so_far : List effects.Effect)
            → KeepsStore D.tells D.Disk since base found earlier so_far self.old.store disk.old
            → KeepsStore D.tells D.Disk since base found earlier (so_far ++ gone.now) self.new.store disk.new) }
        ensures same { (self.new.inside ≡ self.old.inside) × (self.new.journal ≡ self.old.journal) × (self.new.given ≡ self.old.given) }
        ensures survives { OnErr result ((since : ℕ) (base : Image) (found : Tables) (earlier : List Done) (so_far : List effects.Effect)
            → KeepsStore D.tells D.Disk since base found earlier so_far self.old.store disk.old
            → Survives D.now D.left_at since found earlier disk.new) }
        ensures out_of_blocks { result ≡ Err StoreFault.LogFull → (since : ℕ) (base : Image) (found : Tables) (earlier : List Done) (so_far : List effects.Effect)
            → KeepsStore D.tells D.Disk since base found earlier so_far self.old.store disk.old
            → IsOutOfBlocks D.tells D.Disk since base found earlier self.new.store disk.new }
        ensures later { D.now disk.old ≤ D.now disk.new }
        ensures counted { D.fault_count disk.old ≤ D.fault_count disk.new }
        ensures disk_fault { result ≡ Err StoreFault.Disk → Rose (D.fault_count disk.old) (D.fault_count disk.new) }
    {
        for effect in gone {
            self.store.change(disk, effect)?;
        }
        Ok(())
    }

    // The outcome of a statement, with its changes made in the store; or there is no room for it.
    fn place<D: Disk>(
        &mut self,
        disk: &mut D,
        statement: &DataStatement,
    ) -> Result<Outcome, StoreFault>
        requires store { IsStore ⊥ D.Disk self.old.store disk.old }

        ensures outcome { IfOk result (λ o. IsOutcome self.old.store.tables statement.now o.reply o.effects) }
        ensures full { IfOk result (λ o. (rows pages : ℕ) → o.reply ≡ Reply.NoSpace rows pages → HasNoRoom self.old.store statement.now rows pages) }
        ensures running { IfOk result (λ o. running_of self.new ≡ record (running_of self.old) { tables = apply_all self.old.store.tables o.effects }) }
        ensures store { OnOk result (IsStore ⊥ D.Disk self.new.store disk.new) }
        ensures noted { IfOk result (λ o. self.new.store.undo ≡ self.old.store.undo ++ o.effects) }
        ensures kept { IfOk result (λ o. (since : ℕ) (base : Image) (found : Tables) (earlier : List Done) (so_far : List effects.Effect)
            → KeepsStore D.tells D.Disk since base found earlier so_far self.old.store disk.old
            → KeepsStore D.tells D.Disk since base found earlier (so_far ++ o.effects) self.new.store disk.new) }
        ensures same { OnErr result ((self.new.inside ≡ self.old.inside) × (self.new.journal ≡ self.old.journal) × (self.new.given ≡ self.old.given)) }
        ensures survives { OnErr result ((since : ℕ) (base : Image) (found : Tables) (earlier : List Done) (so_far : List effects.Effect)
            → KeepsStore D.tells D.Disk since base found earlier so_far self.old.store disk.old
            → Survives D.now D.left_at since found earlier disk.new) }
        ensures out_of_blocks { result ≡ Err StoreFault.LogFull → (since : ℕ) (base : Image) (found : Tables) (earlier : List Done) (so_far : List effects.Effect)
            → KeepsStore D.tells D.Disk since base found earlier so_far self.old.store disk.old
            → IsOutOfBlocks D.tells D.Disk since base found earlier self.new.store disk.new }
        ensures later { D.now disk.old ≤ D.now disk.new }
        ensures counted { D.fault_count disk.old ≤ D.fault_count disk.new }
        ensures disk_fault { result ≡ Err StoreFault.Disk → Rose (D.fault_count disk.old) (D.fault_count disk.new) }
    {
        laws::effects_fit();
        kept_survives::<D>();
        let outcome = outcome_of(self.alloc, self.store.tables(), statement)?;
        if outcome.effects.len() != 1 {
            self.take_rows(disk, outcome.effects.as_slice())?;
            return Ok(outcome);
        }
        let Some(effect) = outcome.effects.as_slice().first() else {
            unreachable!()
        };
        match self.store.change(disk, effect)? {
            Changed::Done => Ok(outcome),
            Changed::NoSpace { rows, pages } => Ok(Outcome {
                reply: Reply::NoSpace { rows, pages },
                effects: List::new(self.alloc),
            }),
        }
    }

    // Notes a data statement in the open transaction, and gives its reply.
    fn join(
        &mut self,
        done: DoneStatement,
        effects: List<Effect>,
        reply: Reply,
    ) -> Result<(), Memory>
        requires room { length self.old.given.items + 1 < 2 ^ 32 }
        requires inside { IsSome self.old.inside }
        ensures ok { OnOk result ((t : Transaction) → self.old.inside ≡ Some t
            → running_of self.new ≡ answered (record (running_of self.old) { inside = Some (record { done = t.done ++ done ∷ []; effects = t.effects ++ effects }) }) reply) }
        ensures effects { OnOk result (effects_of self.new.inside ≡ effects_of self.old.inside ++ effects) }
        ensures journal { self.new.journal.items ≡ self.old.journal.items }
        ensures given { OnErr result (self.new.given.items ≡ self.old.given.items) }
        ensures store { self.new.store ≡ self.old.store }
    {
        let Some(transaction) = &mut self.inside else {
            return Err(Memory);
        };
        transaction.note(done, effects)?;
        self.give(reply)
    }

    // A data statement.
    fn data<D: Disk>(&mut self, disk: &mut D, statement: DataStatement) -> Result<(), StoreFault>
        requires room { length self.old.given.items + 1 < 2 ^ 32 }
        requires store { HasStore D.Disk self.old disk.old }

        ensures stepped { OnOk result (Steps (D.now disk.new) (running_of self.old) (Plan.Data statement) (running_of self.new)) }
        ensures store { OnOk result (HasStore D.Disk self.new disk.new) }
        ensures kept { OnOk result ((since : ℕ) (base : Image) (found : Tables)
            → KeepsRun D.tells D.Disk since base found self.old disk.old
            → KeepsRun D.tells D.Disk since base found self.new disk.new) }
        ensures failed { OnErr result (Fails (running_of self.old) (Plan.Data statement) self.new.journal.items) }
        ensures given { OnErr result (self.new.given.items ≡ self.old.given.items) }
        ensures survives { OnErr result ((since : ℕ) (base : Image) (found : Tables)
            → KeepsRun D.tells D.Disk since base found self.old disk.old
            → Survives D.now D.left_at since found (done_of self.new.journal.items) disk.new) }
        ensures out_of_blocks { result ≡ Err StoreFault.LogFull → (since : ℕ) (base : Image) (found : Tables)
            → KeepsRun D.tells D.Disk since base found self.old disk.old
            → IsOutOfBlocks D.tells D.Disk since base found (done_of self.new.journal.items) self.new.store disk.new }
        ensures later { D.now disk.old ≤ D.now disk.new }
        ensures counted { D.fault_count disk.old ≤ D.fault_count disk.new }
        ensures disk_fault { result ≡ Err StoreFault.Disk → Rose (D.fault_count disk.old) (D.fault_count disk.new) }
    {
        kept_survives::<D>();
        let Outcome { reply, effects } = self.place(disk, &statement)?;
        let done = DoneStatement {
            number: self.given.len() as u32 + 1,
            plan: statement,
            isolation: Isolation::RepeatableRead,
            reply: reply.copy(self.alloc)?,
        };
        if self.inside.is_some() {
            return Ok(self.join(done, effects, reply)?);
        }
        let mut alone = List::with_capacity(self.alloc, 1)?;
        alone.push(done)?;
        self.commit(disk, alone, effects, reply)
    }

    // BEGIN WORK.
    fn begin(&mut self) -> Result<(), Memory>
        requires room { length self.old.given.items + 1 < 2 ^ 32 }
        ensures ok { OnOk result (running_of self.new ≡ begin_by (running_of self.old) self.old.inside) }
        ensures effects { OnOk result (effects_of self.new.inside ≡ effects_of self.old.inside) }
        ensures journal { self.new.journal.items ≡ self.old.journal.items }
        ensures given { OnErr result (self.new.given.items ≡ self.old.given.items) }
        ensures store { self.new.store ≡ self.old.store }
    {
        if self.inside.is_some() {
            return self.give(Reply::InTx);
        }
        self.inside = Some(Transaction {
            done: List::new(self.alloc),
            effects: List::new(self.alloc),
        });
        self.give(Reply::Begun)
    }

    // COMMIT WORK.
    fn commit_work<D: Disk>(&mut self, disk: &mut D) -> Result<(), StoreFault>
        requires room { length self.old.given.items + 1 < 2 ^ 32 }
        requires store { HasStore D.Disk self.old disk.old }

        ensures stepped { OnOk result (Steps (D.now disk.new) (running_of self.old) Plan.Commit (running_of self.new)) }
        ensures store { OnOk result (HasStore D.Disk self.new disk.new) }
        ensures kept { OnOk result ((since : ℕ) (base : Image) (found : Tables)
            → KeepsRun D.tells D.Disk since base found self.old disk.old
            → KeepsRun D.tells D.Disk since base found self.new disk.new) }
        ensures failed { OnErr result (Fails (running_of self.old) Plan.Commit self.new.journal.items) }
        ensures given { OnErr result (self.new.given.items ≡ self.old.given.items) }
        ensures survives { OnErr result ((since : ℕ) (base : Image) (found : Tables)
            → KeepsRun D.tells D.Disk since base found self.old disk.old
            → Survives D.now D.left_at since found (done_of self.new.journal.items) disk.new) }
        ensures out_of_blocks { result ≡ Err StoreFault.LogFull → (since : ℕ) (base : Image) (found : Tables)
            → KeepsRun D.tells D.Disk since base found self.old disk.old
            → IsOutOfBlocks D.tells D.Disk since base found (done_of self.new.journal.items) self.new.store disk.new }
        ensures later { D.now disk.old ≤ D.now disk.new }
        ensures counted { D.fault_count disk.old ≤ D.fault_count disk.new }
        ensures disk_fault { result ≡ Err StoreFault.Disk → Rose (D.fault_count disk.old) (D.fault_count disk.new) }
    {
        kept_survives::<D>();
        match self.inside.take() {
            None => Ok(self.give(Reply::NotInTx)?),
            Some(Transaction { done, effects }) => {
                self.commit(disk, done, effects, Reply::Committed)
            }
        }
    }

    /// Takes the open transaction back, without a reply; where none is open it does nothing. Errors are those of the store.
    pub(crate) fn end<D: Disk>(&mut self, disk: &mut D) -> Result<(), StoreFault>
        requires store { HasStore D.Disk self.old disk.old }

        ensures ended { OnOk result (running_of self.new ≡ taken_back (running_of self.old) self.old.inside) }
        ensures closed { OnOk result (self.new.inside ≡ None) }
        ensures store { OnOk result (HasStore D.Disk self.new disk.new) }
        ensures kept { OnOk result ((since : ℕ) (base : Image) (found : Tables)
            → KeepsRun D.tells D.Disk since base found self.old disk.old
            → KeepsRun D.tells D.Disk since base found self.new disk.new) }
        ensures journal { self.new.journal ≡ self.old.journal }
        ensures given { self.new.given ≡ self.old.given }
        ensures survives { OnErr result ((since : ℕ) (base : Image) (found : Tables)
            → KeepsRun D.tells D.Disk since base found self.old disk.old
            → Survives D.now D.left_at since found (done_of self.new.journal.items) disk.new) }
        ensures out_of_blocks { result ≡ Err StoreFault.LogFull → (since : ℕ) (base : Image) (found : Tables)
            → KeepsRun D.tells D.Disk since base found self.old disk.old
            → IsOutOfBlocks D.tells D.Disk since base found (done_of self.new.journal.items) self.new.store disk.new }
        ensures later { D.now disk.old ≤ D.now disk.new }
        ensures counted { D.fault_count disk.old ≤ D.fault_count disk.new }
        ensures disk_fault { result ≡ Err StoreFault.Disk → Rose (D.fault_count disk.old) (D.fault_count disk.new) }
    {
        if self.inside.is_none() {
            return Ok(());
        }
        self.store.rollback(disk)?;
        self.inside = None;
        Ok(())
    }

    // ROLLBACK WORK.
    fn rollback_work<D: Disk>(&mut self, disk: &mut D) -> Result<(), StoreFault>
        requires room { length self.old.given.items + 1 < 2 ^ 32 }
        requires store { HasStore D.Disk self.old disk.old }

        ensures stepped { OnOk result (Steps (D.now disk.new) (running_of self.old) Plan.Rollback (running_of self.new)) }
        ensures store { OnOk result (HasStore D.Disk self.new disk.new) }
        ensures kept { OnOk result ((since : ℕ) (base : Image) (found : Tables)
            → KeepsRun D.tells D.Disk since base found self.old disk.old
            → KeepsRun D.tells D.Disk since base found self.new disk.new) }
        ensures failed { OnErr result (Fails (running_of self.old) Plan.Rollback self.new.journal.items) }
        ensures given { OnErr result (self.new.given.items ≡ self.old.given.items) }
        ensures survives { OnErr result ((since : ℕ) (base : Image) (found : Tables)
            → KeepsRun D.tells D.Disk since base found self.old disk.old
            → Survives D.now D.left_at since found (done_of self.new.journal.items) disk.new) }
        ensures out_of_blocks { result ≡ Err StoreFault.LogFull → (since : ℕ) (base : Image) (found : Tables)
            → KeepsRun D.tells D.Disk since base found self.old disk.old
            → IsOutOfBlocks D.tells D.Disk since base found (done_of self.new.journal.items) self.new.store disk.new }
        ensures later { D.now disk.old ≤ D.now disk.new }
        ensures counted { D.fault_count disk.old ≤ D.fault_count disk.new }
        ensures disk_fault { result ≡ Err StoreFault.Disk → Rose (D.fault_count disk.old) (D.fault_count disk.new) }
    {
        kept_survives::<D>();
        if self.inside.is_none() {
            return Ok(self.give(Reply::NotInTx)?);
        }
        self.end(disk)?;
        Ok(self.give(Reply::RolledBack)?)
    }

    /// Runs the next statement, and gives its reply. Where it fails, no reply is given; where the disk fails at a commit, the
    /// journal has its entry, and a stop may leave it or not. For more statements than a `u32` counts memory is wanting.
    pub(crate) fn step<D: Disk>(&mut self, disk: &mut D, plan: Plan) -> Result<(), StoreFault>
        requires store { HasStore D.Disk self.old disk.old }

        ensures stepped { OnOk result (Steps (D.now disk.new) (running_of self.old) plan (running_of self.new)) }
        ensures store { OnOk result (HasStore D.Disk self.new disk.new) }
        ensures kept { OnOk result ((since : ℕ) (base : Image) (found : Tables)
            → KeepsRun D.tells D.Disk since base found self.old disk.old
            → KeepsRun D.tells D.Disk since base found self.new disk.new) }
        ensures failed { OnErr result (Fails (running_of self.old) plan self.new.journal.items) }
        ensures given { OnErr result (self.new.given.items ≡ self.old.given.items) }
        ensures survives { OnErr result ((since : ℕ) (base : Image) (found : Tables)
            → KeepsRun D.tells D.Disk since base found self.old disk.old
            → Survives D.now D.left_at since found (done_of self.new.journal.items) disk.new) }
        ensures out_of_blocks { result ≡ Err StoreFault.LogFull → (since : ℕ) (base : Image) (found : Tables)
            → KeepsRun D.tells D.Disk since base found self.old disk.old
            → IsOutOfBlocks D.tells D.Disk since base found (done_of self.new.journal.items) self.new.store disk.new }
        ensures later { D.now disk.old ≤ D.now disk.new }
        ensures counted { D.fault_count disk.old ≤ D.fault_count disk.new }
        ensures disk_fault { result ≡ Err StoreFault.Disk → Rose (D.fault_count disk.old) (D.fault_count disk.new) }
    {
        kept_survives::<D>();
        if self.given.len() >= u32::MAX as usize {
            return Err(StoreFault::Memory);
        }
        match plan {
            Plan::Data(statement) => self.data(disk, statement),
            Plan::Begin => Ok(self.begin()?),
            Plan::Commit => self.commit_work(disk),
            Plan::Rollback => self.rollback_work(disk),
        }
    }
}

// The entry of a commit that is not answered.
fn unanswered(done: List<DoneStatement>, effects: List<Effect>) -> Committed
    ensures { result ≡ entry_unanswered 1 done effects None }
{
    Committed {
        session: 1,
        done,
        effects,
        buffered: false,
        acked: None,
        flushed: None,
    }
}
