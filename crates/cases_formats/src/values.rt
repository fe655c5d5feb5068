//! Cases of the values of columns: a text of a type is given by the type's OID and a JSON string.

ghost use Rattle.dbl_value_types.specs.Values.{IsOf};

use anyhow::Result;
use cases_items::words;
use dbl_base::Text;
use dbl_value::{PgType, Val, json, json_tree, of, print, read, read_owned};
use std::alloc::Global;

/// Adds a value's text as a JSON string, the value in the change event, and the same as a JSON tree.
pub fn show_read(alloc: Global, shown: &mut String, arguments: &str) -> Result<()> {
    let (number, text) = words::split(arguments, " ");
    let ty = of(number.parse()?)?;
    show_owned(alloc, shown, ty, words::text(alloc, text)?.as_str())?;
    show_tree_of(alloc, shown, ty, &words::text(alloc, text)?)
}

fn show_owned(alloc: Global, shown: &mut String, ty: PgType, text: &str) -> Result<()> {
    match read_owned(alloc, ty, Text::of(alloc, text)?) {
        Ok(val) => {
            let end = show_printed(alloc, shown, ty, &val);
            drop(val);
            end
        }
        Err(error) => words::said(shown, &error),
    }
}

fn show_printed(alloc: Global, shown: &mut String, ty: PgType, val: &Val) -> Result<()>
    requires { IsOf ty val.now }
{
    show_json(alloc, shown, Val::Text(print(alloc, ty, val)?))?;
    words::add(shown, " | ")?;
    show_json(alloc, shown, val.copy(alloc)?)
}

fn show_json(alloc: Global, shown: &mut String, val: Val) -> Result<()> {
    let text = json(alloc, &val);
    drop(val);
    words::add(shown, text?.as_str())
}

fn show_tree_of(alloc: Global, shown: &mut String, ty: PgType, text: &Text) -> Result<()> {
    words::add(shown, " | ")?;
    match read(alloc, ty, text) {
        Ok(val) => {
            let tree = json_tree(alloc, &val);
            drop(val);
            let tree = tree?;
            let end = words::said(shown, &tree);
            drop(tree);
            end
        }
        Err(error) => words::said(shown, &error),
    }
}
