ghost use Rattle.std.specs.Prelude.{◌≡◌, ◌≢◌, ◌≤◌, ℕ, List, None, Some, IfOk, IfErr, length, map, vec_len};
ghost use Rattle.toml.specs.Data.{Data};
ghost use Rattle.toml.specs.View.{view};
ghost use Rattle.gl_task_file.specs.declared.error.TaskError.TheVariants.{Memory};
ghost use Rattle.gl_task_file.specs.Keys.{Test, each_item, first_failed};
ghost use Rattle.gl_task_file.specs.Meaning.{Each};

use crate::error::TaskError;
use std::alloc::Global;
use toml::Value;

/// How the items of a list are read.
pub trait ReadItem {
    /// What an item of the list says.
    type Item: Drop;

    /// The tests of an item with its number.
    ghost tests: { Self → ℕ → Data → List Test };

    /// The value says this.
    ghost says: { Self → Data → Self.Item → Type 0 };

    /// An item with its number, which counts from 1.
    fn read_item(&self, alloc: Global, value: &Value, n: u32) -> Result<Self::Item, TaskError>
        ensures ok { IfOk result (says self.now (view value.now)) }
        ensures passes { IfOk result
            (λ made. first_failed (tests self.now n (view value.now)) ≡ None) }
        ensures refused { IfErr result (λ e. e ≢ Memory
            → first_failed (tests self.now n (view value.now)) ≡ Some e) };
}

/// The items of a list.
#[tactic(auto, using(crate::proofs::TestLemmas::behind_all, crate::proofs::TestLemmas::before_all))]
pub fn read_items<R: ReadItem>(
    alloc: Global,
    reader: &R,
    values: &[Value],
) -> Result<Vec<R::Item>, TaskError>
    requires { length values.now ≤ 200 }
    ensures ok { IfOk result
        (λ items. Each (R.says reader.now) (map view values.now) items.items) }
    ensures count { IfOk result (λ items. vec_len items ≡ length values.now) }
    ensures passes { IfOk result
        (λ items. first_failed (each_item (R.tests reader.now) 1 (map view values.now)) ≡ None) }
    ensures refused { IfErr result (λ e. e ≢ Memory
        → first_failed (each_item (R.tests reader.now) 1 (map view values.now)) ≡ Some e) }
{
    let mut items = Vec::new(alloc);
    let mut n = 0;
    let mut rest = values;
    'items: while let Some((value, others)) = rest.split_first() {
        n += 1;
        items.push(reader.read_item(alloc, value, n)?)?;
        rest = others;
    }
    Ok(items)
}
