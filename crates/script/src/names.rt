// The names under which a script keeps bytes.
ghost use Rattle.std.specs.Prelude.{◌≡◌, ℕ, List, None};
ghost use Rattle.std.specs.Option.{option_map};
ghost use Rattle.script.specs.Kept.{holds, Keeps};

use crate::hasher::NameHasher;
use std::alloc::{AllocError, Global};
use std::collections::HashMap;
use std::hash::BuildHasherDefault;

// What a script has kept so far. A name that is set again has its new bytes alone.
#[derive(Drop)]
pub struct Names {
    kept: HashMap<Vec<u8>, Vec<u8>, BuildHasherDefault<NameHasher>>,
}

impl Names {
    #[tactic(auto, unfolding(crate::specs::Kept::holds))]
    pub fn new(heap: Global) -> Names
        ensures { (name : List ℕ) → holds result name ≡ None }
    {
        Names {
            kept: HashMap::with_hasher(heap, BuildHasherDefault::new()),
        }
    }

    // The bytes that are kept under the name.
    #[tactic(auto, unfolding(crate::specs::Kept::holds))]
    pub fn find(&self, name: &[u8]) -> Option<&[u8]>
        ensures { option_map (λ x. x.now) result ≡ holds self.now name.now }
    {
        self.kept.get(name).map(|bytes| bytes.as_slice())
    }

    // Keeps the bytes under the name.
    pub fn keep(&mut self, name: Vec<u8>, bytes: Vec<u8>) -> Result<(), AllocError>
        ensures { Keeps name.items bytes.items self.old self.new result }
    {
        self.kept.insert(name, bytes)?;
        Ok(())
    }
}
