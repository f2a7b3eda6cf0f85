//! Errors of reading the input.
use hm_base::{OutOfMemory, Refused, Rule};
use hm_json_tree::JsonFault;
use hm_page_loading::PageLoadFault;
use hm_refs::TableFault;
use hm_store::LoadFault;

/// Why the files of a run give no tree.
#[derive(Drop)]
pub enum InputFault {
    /// The table is refused.
    Table { fault: TableFault },
    /// The page is refused, at byte `at` of it.
    Page { rule: Rule, at: u32 },
    /// The JSON is that of no tree.
    Json { fault: JsonFault },
    /// A call on the store failed, or a file isn't there.
    Store,
    /// No memory could be allocated.
    OutOfMemory,
}

impl From<OutOfMemory> for InputFault {
    ghost use Rattle.std.specs.Prelude.{◌≡◌};
    ghost use Rattle.hm_input.specs.declared.unread.InputFault.TheVariants as reasons;

    ghost from_gives = { λ _ unread. unread ≡ reasons.OutOfMemory };

    fn from(_error: OutOfMemory) -> Self {
        InputFault::OutOfMemory
    }
}

impl From<LoadFault> for InputFault {
    ghost use Rattle.std.specs.Prelude.{◌≡◌};
    ghost use Rattle.hm_input.specs.Reasons.{unread_of};

    ghost from_gives = { λ fault unread. unread ≡ unread_of fault };

    fn from(fault: LoadFault) -> Self {
        match fault {
            LoadFault::Store => InputFault::Store,
            LoadFault::OutOfMemory => InputFault::OutOfMemory,
        }
    }
}

impl From<Refused> for InputFault {
    ghost use Rattle.std.specs.Prelude.{◌≡◌};
    ghost use Rattle.hm_input.specs.Reasons.{refused_as};

    ghost from_gives = { λ refused unread. unread ≡ refused_as refused };

    fn from(refused: Refused) -> Self {
        match refused {
            Refused::Page { rule, at } => InputFault::Page { rule, at },
            Refused::OutOfMemory => InputFault::OutOfMemory,
        }
    }
}

impl From<PageLoadFault> for InputFault {
    ghost use Rattle.std.specs.Prelude.{◌≡◌};
    ghost use Rattle.hm_input.specs.Reasons.{page_unread};

    ghost from_gives = { λ fault unread. unread ≡ page_unread fault };

    fn from(fault: PageLoadFault) -> Self {
        match fault {
            PageLoadFault::Page { rule, at } => InputFault::Page { rule, at },
            PageLoadFault::Store => InputFault::Store,
            PageLoadFault::OutOfMemory => InputFault::OutOfMemory,
        }
    }
}
