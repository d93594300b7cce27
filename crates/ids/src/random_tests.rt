//! Runs of random statements over one disk, opened again between them, beside a plain model of one table.

use crate::runs::run;
use ids_base::status::Status;
use ids_engine::{InitPlan, init_disk};
use ids_outside::MemDisk;
use std::alloc::Global;
use std::test::Fail;

/// How many keys the statements speak of.
const KEYS: usize = 8;

// The value of each key's row, where it has one; and what these were when the open transaction began, if one is open.
#[derive(Clone, Copy)]
struct Plain {
    rows: [Option<u32>; KEYS],
    before: Option<[Option<u32>; KEYS]>,
}

impl Plain {
    // A transaction begins.
    fn begin(&mut self) -> &'static str {
        if self.before.is_some() {
            return "error -535";
        }
        self.before = Some(self.rows);
        "begun"
    }

    // The open transaction stays.
    fn commit(&mut self) -> &'static str {
        if self.before.is_none() {
            return "error -255";
        }
        self.before = None;
        "committed"
    }

    // The open transaction never was.
    fn roll_back(&mut self) -> &'static str {
        let Some(before) = self.before else {
            return "error -255";
        };
        self.rows = before;
        self.before = None;
        "rolled back"
    }

    fn insert(&mut self, key: usize, value: u32) -> &'static str {
        let row = &mut self.rows[key % KEYS];
        if row.is_some() {
            return "error duplicate";
        }
        *row = Some(value);
        "rows 1"
    }

    fn delete(&mut self, key: usize) -> &'static str {
        let row = &mut self.rows[key % KEYS];
        if row.is_none() {
            return "rows 0";
        }
        *row = None;
        "rows 1"
    }
}

// The next draw of a generator with 31 bits.
fn next_draw(draw: u32) -> u32 {
    draw.wrapping_mul(1103515245).wrapping_add(12345) % 2147483648
}

// A script and the text that it is to give, of so many lines.
#[derive(Drop)]
struct Lines {
    script: String,
    text: String,
    count: u32,
}

impl Lines {
    // A statement, and the reply to it.
    fn add(&mut self, alloc: Global, statement: &str, reply: &str) -> Result<(), Fail> {
        self.count = self.count.wrapping_add(1);
        let number = self.count;
        self.script.push_str(statement)?;
        self.script.push_str("\n")?;
        self.text
            .push_str(&format!(in alloc; "1.{number} {reply}\n")?)?;
        Ok(())
    }

    // A look at a key, with the row that it has.
    fn look(&mut self, alloc: Global, plain: &Plain, key: usize) -> Result<(), Fail> {
        let key = key % KEYS;
        let statement = format!(in alloc; "SELECT * FROM t WHERE k = {key}")?;
        match plain.rows[key] {
            None => self.add(alloc, &statement, "rows 0"),
            Some(value) => {
                let number = self.count.wrapping_add(1);
                self.text
                    .push_str(&format!(in alloc; "1.{number} {key}|{value}|\n")?)?;
                self.add(alloc, &statement, "rows 1")
            }
        }
    }

    // A statement as a draw says.
    fn add_drawn(&mut self, alloc: Global, plain: &mut Plain, draw: u32) -> Result<(), Fail> {
        let key = (draw / 16) as usize % KEYS;
        let value = draw / 128 % 1000;
        match draw % 16 {
            0 | 1 => self.add(alloc, "BEGIN", plain.begin()),
            2 => self.add(alloc, "COMMIT", plain.commit()),
            3 | 4 => self.add(alloc, "ROLLBACK", plain.roll_back()),
            5..=9 => {
                let statement = format!(in alloc; "INSERT INTO t VALUES ({key}, {value})")?;
                self.add(alloc, &statement, plain.insert(key, value))
            }
            10..=13 => {
                let statement = format!(in alloc; "DELETE FROM t WHERE k = {key}")?;
                self.add(alloc, &statement, plain.delete(key))
            }
            _ => self.look(alloc, plain, key),
        }
    }
}

#[test]
fn random_statements_beside_a_plain_model(rt: HostRuntime) -> Result<(), Fail> {
    let alloc = rt.alloc();
    let mut disk = MemDisk::new(alloc, &[], Vec::new(alloc))?;
    assert!(rt; init_disk(&mut disk, &InitPlan::defaults()).is_ok());
    let created = run(alloc, disk, b"CREATE TABLE t (k INTEGER, v INTEGER)")?;
    disk = created.disk;
    let mut plain = Plain {
        rows: [None; KEYS],
        before: None,
    };
    let mut draw = 20261;
    for _ in 0..6 {
        let mut lines = Lines {
            script: String::new(alloc),
            text: String::new(alloc),
            count: 0,
        };
        for _ in 0..40 {
            draw = next_draw(draw);
            lines.add_drawn(alloc, &mut plain, draw / 65536)?;
        }
        let ended = run(alloc, disk, lines.script.as_bytes())?;
        assert_eq!(rt; ended.status, Status::Done);
        assert_eq!(rt; ended.out.taken(), lines.text.as_bytes());
        disk = ended.disk;
        let _ = plain.roll_back();
    }
    Ok(())
}
