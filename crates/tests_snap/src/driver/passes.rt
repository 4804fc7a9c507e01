//! Passes over all objects, or many launches: what a call asks is tested once, before the loop.

ghost use Rattle.std.specs.Prelude.{◌≡◌};

use super::{Driven, Failed, NO_ARGS, Refused};

impl Driven {
    /// Each object and how many fields it has; the shared object comes first.
    pub fn objects(&self) -> &[(u32, u8)]
        ensures { result.now ≡ self.now.objects }
    {
        self.objects.as_slice()
    }

    /// Mutator `m` makes so many objects.
    pub fn fill(&mut self, m: u8, objects: u32) -> Result<(), Failed> {
        for _ in 0..objects {
            self.new(m)?;
        }
        Ok(())
    }

    /// Mutator 0 launches so many checks.
    pub fn launch_many(&mut self, count: u32) -> Result<(), Failed> {
        for _ in 0..count {
            self.launch(0)?;
        }
        Ok(())
    }

    /// Retires so many checks, the oldest first.
    pub fn retire_many(&mut self, count: u32) -> Result<(), Refused> {
        for _ in 0..count {
            self.retire(0, 0)?;
        }
        Ok(())
    }

    /// Loads the first field of each object, and gives the sum of the words.
    pub fn load_each(&mut self, m: u8) -> Result<u64, Refused> {
        if m >= self.sizes.mutators || (self.heap.spare() as usize) < self.objects.len() {
            return Err(Refused);
        }
        let mut sum: u64 = 0;
        for index in 0..self.objects.len() {
            let (obj, fields) = self.objects[index];
            if fields == 0 {
                return Err(Refused);
            }
            sum = sum.wrapping_add(self.heap.load(m, obj, 0));
        }
        Ok(sum)
    }

    /// Stores `value` into the first field of each object.
    pub fn store_each(&mut self, m: u8, value: u64) -> Result<(), Refused> {
        if m >= self.sizes.mutators || (self.heap.spare() as usize) < self.objects.len() {
            return Err(Refused);
        }
        for index in 0..self.objects.len() {
            let (obj, fields) = self.objects[index];
            if fields == 0 {
                return Err(Refused);
            }
            self.heap.store(m, obj, 0, value);
        }
        Ok(())
    }

    /// A check reads the first field of each object; the answer is the sum of the words, where what is lost counts as 0.
    pub fn read_each(&self, check: usize) -> Result<u64, Refused> {
        if check >= self.checks.len() {
            return Err(Refused);
        }
        let mut sum: u64 = 0;
        for index in 0..self.objects.len() {
            let (obj, fields) = self.objects[index];
            if fields == 0 {
                return Err(Refused);
            }
            sum = sum.wrapping_add(self.heap.read(&self.checks[check], obj, 0).unwrap_or(0));
        }
        Ok(sum)
    }

    /// So many launches, each with its retire, beside the checks that are active.
    pub fn turns(&mut self, m: u8, count: u32) -> Result<(), Refused> {
        if m >= self.sizes.mutators || self.heap.spare() / 2 < count {
            return Err(Refused);
        }
        for _ in 0..count {
            match self.heap.launch(m, 0, NO_ARGS) {
                Ok(lane) => self.heap.retire(m, lane),
                Err(_) => return Err(Refused),
            }
        }
        Ok(())
    }
}
