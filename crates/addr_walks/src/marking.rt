// Marks over numbers, with the list of what is marked beside them. The list is never popped: a search goes along it, and
// clearing costs what was marked, not what could be.
ghost use Rattle.std.specs.Prelude.{◌≡◌, ℕ, ◌<◌, [], length, vec_len, IfOk, OnOk};
ghost use Rattle.std.specs.List.{All};
ghost use Rattle.addr_walks.specs.Marks.{Tracks, HasLeft, with_mark, Grows};
ghost use Rattle.addr_walks.specs.Rows.{LedTo, AreBelow, Holds};

use addr_base::{Items, NoMemory};
use std::alloc::Global;

#[derive(Drop)]
pub struct Marked {
    pub marks: Vec<bool>,
    pub queue: Vec<u32>,
}

impl Marked {
    /// Nothing is marked.
    pub fn new(alloc: Global, size: usize) -> Result<Marked, NoMemory>
        ensures len { IfOk result (λ m. vec_len m.marks ≡ size) }
        ensures tracks { IfOk result (λ m. Tracks m.marks.items m.queue.items) }
    {
        Ok(Marked {
            marks: vec![in alloc; false; size]?,
            queue: Vec::new(alloc),
        })
    }

    /// Takes all marks away.
    fn clear(&mut self)
        requires tracks { Tracks self.old.marks.items self.old.queue.items }
        ensures len { vec_len self.new.marks ≡ vec_len self.old.marks }
        ensures none { self.new.queue.items ≡ [] }
        ensures tracks { Tracks self.new.marks.items self.new.queue.items }
    {
        unmark(&mut self.marks, self.queue.as_slice());
        self.queue.clear();
    }

    /// Marks a number; a refusal leaves all as it was.
    fn mark(&mut self, c: u32) -> Result<(), NoMemory>
        requires within { c < vec_len self.old.marks }
        requires tracks { Tracks self.old.marks.items self.old.queue.items }
        ensures len { vec_len self.new.marks ≡ vec_len self.old.marks }
        ensures tracks { Tracks self.new.marks.items self.new.queue.items }
        ensures found { OnOk result (self.new.queue.items ≡ with_mark self.old.marks.items self.old.queue.items c) }
    {
        if !self.marks[c as usize] {
            self.queue.push(c)?;
            self.marks[c as usize] = true;
        }
        Ok(())
    }

    fn mark_all(&mut self, cs: &[u32]) -> Result<(), NoMemory>
        requires within { All (λ c. c < vec_len self.old.marks) cs.now }
        requires tracks { Tracks self.old.marks.items self.old.queue.items }
        ensures len { vec_len self.new.marks ≡ vec_len self.old.marks }
        ensures tracks { Tracks self.new.marks.items self.new.queue.items }
        ensures grows { OnOk result (Grows cs.now self.old.queue.items self.new.queue.items) }
    {
        for c in cs.iter() {
            self.mark(*c)?;
        }
        Ok(())
    }

    /// Marks what walks lead to from the seeds, and nothing else.
    pub fn spread(&mut self, rows: &[Items<u32>], seeds: &[u32]) -> Result<(), NoMemory>
        requires len { vec_len self.old.marks ≡ length rows.now }
        requires below { AreBelow rows.now (length rows.now) }
        requires seeds { All (λ s. s < length rows.now) seeds.now }
        requires tracks { Tracks self.old.marks.items self.old.queue.items }
        ensures len { vec_len self.new.marks ≡ vec_len self.old.marks }
        ensures tracks { Tracks self.new.marks.items self.new.queue.items }
        ensures found { OnOk result (Holds self.new.queue.items (LedTo rows.now seeds.now)) }
    {
        self.clear();
        self.mark_all(seeds)?;
        let mut done = 0;
        while done < self.queue.len() {
            let b = self.queue[done] as usize;
            self.mark_all(rows[b].as_slice())?;
            done += 1;
        }
        Ok(())
    }
}

/// Takes the marks away from the listed numbers.
fn unmark(marks: &mut Vec<bool>, listed: &[u32])
    requires { All (λ c. c < vec_len marks.old) listed.now }
    ensures len { vec_len marks.new ≡ vec_len marks.old }
    ensures left { HasLeft marks.old.items listed.now marks.new.items }
{
    for c in listed.iter() {
        marks[*c as usize] = false;
    }
}
