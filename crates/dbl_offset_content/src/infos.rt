ghost use Rattle.std.specs.Prelude.{◌≡◌, IfOk};

use dbl_model_table::TableInfo;
use std::alloc::{AllocError, Global};
use std::marker::Model;
use std::rc::Rc;

/// The tables of an offset, which contracts see as their list. Copies of an offset share them.
#[derive(Debug, Drop)]
pub struct SharedInfos {
    shared: Rc<Vec<TableInfo>>,
}

impl Model for SharedInfos {
    ghost use Rattle.std.specs.Prelude.{List};
    ghost use Rattle.dbl_model_table.specs.declared.table.TableInfo.{TableInfo as SpecInfo};

    ghost Value = { List SpecInfo };

    ghost view = { λ s. s.shared.value.items };
}

impl SharedInfos {
    /// Wraps the tables.
    pub fn make(alloc: Global, infos: Vec<TableInfo>) -> Result<SharedInfos, AllocError>
        ensures { IfOk result (λ shared. shared ≡ infos.items) }
    {
        Ok(SharedInfos {
            shared: Rc::new(alloc, infos)?,
        })
    }

    /// Borrows the tables.
    pub fn items(&self) -> &Vec<TableInfo>
        ensures { result.now.items ≡ self.now }
    {
        &self.shared
    }

    /// Another owner of the tables.
    pub fn share(&self) -> Result<SharedInfos, AllocError>
        ensures { IfOk result (λ shared. shared ≡ self.now) }
    {
        Ok(SharedInfos {
            shared: self.shared.clone()?,
        })
    }
}
