ghost use Rattle.std.specs.Prelude.{◌≡◌, ◌≢◌, ◌≤◌, ◌≤ℤ◌, pos, None, Some, IfOk, IfErr, IsTrue, codes, option_map};
ghost use Rattle.std.specs.Option.{ForSome};
ghost use Rattle.toml.specs.View.{table_view};
ghost use Rattle.gl_task_file.specs.declared.error.TaskError.TheVariants.{Memory};
ghost use Rattle.gl_text.specs.Forms.{is_file_name};
ghost use Rattle.gl_task_file.specs.Keys.{first_failed, key_of, optional, said};
ghost use Rattle.gl_task_file.specs.Meaning.{IsKind};
ghost use Rattle.gl_task.specs.Ranges.{has_minimum};
ghost use Rattle.gl_task_file.specs.Tests.{minimum_test};
ghost use Rattle.gl_task_file.specs.Values.{file_name, kind};
ghost use Rattle.gl_task_file.specs.Code.Sections.{kind_word};

use crate::error::TaskError;
use crate::key::{needed_whole, optional_file_name, row};
use crate::limit::LAST_SECOND;
use crate::word::KindWord;
use gl_desk::Name;
use gl_task::Kind;
use std::alloc::Global;
use toml::Table;

/// The kind of a task whose word is known, with its minimum.
pub fn read_minimum(file: &Table, word: KindWord) -> Result<Kind, TaskError>
    requires { said (codes "kind") kind (table_view file.now) ≡ Some (kind_word word) }
    ensures ok { IfOk result (IsKind (table_view file.now)) }
    ensures range { IfOk result (λ made. IsTrue (has_minimum made)) }
    ensures passes { IfOk result
        (λ made. minimum_test (Some (kind_word word)) (table_view file.now) ≡ None) }
    ensures refused { IfErr result
        (λ e. minimum_test (Some (kind_word word)) (table_view file.now) ≡ Some e) }
{
    match word {
        KindWord::Racing => Ok(Kind::Racing),
        KindWord::Area => {
            let minimum = needed_whole(file, "minimum", row(3), 1, LAST_SECOND)?;
            Ok(Kind::Area { minimum })
        }
    }
}

/// The name of the airspace file, if there is one.
pub fn read_airspace(alloc: Global, file: &Table) -> Result<Option<Name>, TaskError>
    ensures ok { IfOk result (λ name. said (codes "airspace") file_name (table_view file.now)
        ≡ name) }
    ensures form { IfOk result (λ name. ForSome name (λ text. IsTrue (is_file_name text))) }
    ensures passes { IfOk result
        (λ name.
        optional (key_of 5 0 0) (codes "airspace") file_name (table_view file.now) ≡ None) }
    ensures refused { IfErr result (λ e. e ≢ Memory
        → optional (key_of 5 0 0) (codes "airspace") file_name (table_view file.now) ≡ Some e) }
{
    match optional_file_name(file, "airspace", row(5))? {
        Some(text) => Ok(Some(Name::from_text(alloc, text)?)),
        None => Ok(None),
    }
}
