// How far each operation is: one course an operation, by its number.
ghost use Rattle.std.specs.Prelude.{◌≡◌, ◌+◌, ◌==◌, slice_get, if◌then◌else◌, Ok, Err, unwrap_or};
ghost use Rattle.addr_history.specs.declared.answers.OpStatus.TheVariants.{Ready, Pending};
ghost use Rattle.addr_queue.specs.Changes.{change, change_each};
ghost use Rattle.addr_core.specs.within.Courses.{woken, failed_by, given_back, acquired};

use addr_base::OpId;
use addr_history::{NoHandle, OpStatus};

/// How many of an operation's bundles aren't resident, its first failure, and how many references it has.
#[derive(Clone, Copy)]
pub struct Course {
    pub missing: u32,
    pub failed: Option<OpStatus>,
    pub references: u32,
}

impl Course {
    /// How far the operation is, if it isn't released.
    pub fn status(self) -> Result<OpStatus, NoHandle>
        ensures { result ≡ (if self.references == 0 then Err (record {}) else Ok
            (unwrap_or self.failed (if self.missing == 0 then Ready else Pending))) }
    {
        if self.references == 0 {
            return Err(NoHandle);
        }
        match self.failed {
            Some(failed) => Ok(failed),
            None => if self.missing == 0 {
                Ok(OpStatus::Ready)
            } else {
                Ok(OpStatus::Pending)
            },
        }
    }

    /// One of its bundles came.
    fn woken(self) -> Course
        ensures { result ≡ woken self }
    {
        Course {
            missing: self.missing.saturating_sub(1),
            failed: self.failed,
            references: self.references,
        }
    }

    /// One of its bundles could not be brought. The first such failure stays.
    fn failed_by(self, status: OpStatus) -> Course
        ensures { result ≡ failed_by status self }
    {
        if self.failed.is_some() {
            self
        } else {
            Course {
                missing: self.missing,
                failed: Some(status),
                references: self.references,
            }
        }
    }

    /// One reference was given back.
    fn given_back(self) -> Course
        ensures { result ≡ given_back self }
    {
        Course {
            missing: self.missing,
            failed: self.failed,
            references: self.references.saturating_sub(1),
        }
    }

    /// One more reference was taken.
    fn acquired(self) -> Course
        ensures { result ≡ acquired self }
    {
        Course {
            missing: self.missing,
            failed: self.failed,
            references: self.references.saturating_add(1),
        }
    }
}

/// The course of an operation, where it was opened.
pub fn course_at(courses: &[Course], op: OpId) -> Option<Course>
    ensures { result ≡ slice_get courses.now op.0 }
{
    courses.get(op.0 as usize).copied()
}

#[tactic(auto, using(addr_queue::proofs::Places::change_there, addr_queue::proofs::Places::change_past))]
fn wake(courses: &mut [Course], op: u32)
    ensures { courses.new ≡ change woken op courses.old }
{
    let place = op as usize;
    if place < courses.len() {
        courses[place] = courses[place].woken();
    }
}

#[tactic(auto, using(addr_queue::proofs::Places::change_there, addr_queue::proofs::Places::change_past))]
fn fail(courses: &mut [Course], op: u32, status: OpStatus)
    ensures { courses.new ≡ change (failed_by status) op courses.old }
{
    let place = op as usize;
    if place < courses.len() {
        courses[place] = courses[place].failed_by(status);
    }
}

/// The operation has one reference less.
#[tactic(auto, using(addr_queue::proofs::Places::change_there, addr_queue::proofs::Places::change_past))]
pub fn give_back(courses: &mut [Course], op: u32)
    ensures { courses.new ≡ change given_back op courses.old }
{
    let place = op as usize;
    if place < courses.len() {
        courses[place] = courses[place].given_back();
    }
}

/// The operation has one reference more.
#[tactic(auto, using(addr_queue::proofs::Places::change_there, addr_queue::proofs::Places::change_past))]
pub fn acquire(courses: &mut [Course], op: u32)
    ensures { courses.new ≡ change acquired op courses.old }
{
    let place = op as usize;
    if place < courses.len() {
        courses[place] = courses[place].acquired();
    }
}

/// One of the bundles came that these operations wait for.
pub fn wake_each(courses: &mut [Course], ops: &[u32])
    ensures { courses.new ≡ change_each woken ops.now courses.old }
{
    for op in ops {
        wake(courses, *op);
    }
}

/// One of the bundles failed that these operations wait for.
pub fn fail_each(courses: &mut [Course], ops: &[u32], status: OpStatus)
    ensures { courses.new ≡ change_each (failed_by status) ops.now courses.old }
{
    for op in ops {
        fail(courses, *op, status);
    }
}
