//! The texts of a refutation of a certificate.

ghost use Rattle.std.specs.Prelude.{◌≡◌, ◌≢◌, ◌⊎◌, map, IfErr, IfOk, IsErrOf, IsSome};
ghost use Rattle.std.specs.String.{string_bytes};
ghost use Rattle.argue_outside.specs.declared.Role.{Role as ARole};
ghost use Rattle.argue_words.specs.Words.{check_texts, export_texts};
ghost use Rattle.edit_rules.specs.Kinds.{framework_of};
ghost use Rattle.argue_commands.specs.Checks.{CheckEnds};
ghost use Rattle.argue_commands.specs.Inputs.{reading};
ghost use Rattle.argue_commands.specs.Replacing.{file_text};
ghost use Rattle.argue_commands.specs.Texts.{common_text};
ghost use Rattle.lrat_commands.specs.Exporting.{EndsExporting, ExportEnds, IsExported, IsTextFrom, exported_files};
ghost use Rattle.lrat_commands.specs.Exporting.{exported_text, exporting_by};

use argue_commands::checking::{Checked, read_accepted};
use argue_commands::query::{number_in, query_of};
use argue_commands::{Refusal, Status, Written};
use argue_outside::{Files, Role};
use argue_words::{CheckWords, ExportWords};
use iccma_tasks::Query;
use lists::{Bytes, Items, Memory};
use refutation_logs::{Exported, export_refutation};
use std::alloc::Global;
use std::mem::{forget, replace};

/// The refutation whose texts are asked for: that of this number, counted from 1, in a certificate for the query.
#[derive(Drop)]
pub struct Exporting {
    pub query: Query,
    pub number: u32,
}

/// The refutation that the words for an export ask for. `None` where they ask no query, or the refutation's words are no
/// number.
#[tactic(auto, unfolding(crate::specs::Exporting::exporting_by))]
pub fn exporting_of(words: &ExportWords<'_>) -> Option<Exporting>
    ensures { result ≡ exporting_by (export_texts words.now) }
{
    let query = query_of(words.check.task, words.check.number)?;
    let number = number_in(words.refutation)?;
    Some(Exporting { query, number })
}

// The texts of a refutation of a certificate that is accepted.
fn export_read(alloc: Global, read: &Checked, exporting: &Exporting) -> Result<Exported, Status>
    requires { CheckEnds (framework_of read.now.framework) exporting.now.query read.now.answer read.now.certificate
        Status.Done }
    ensures ok { IfOk result (IsTextFrom read.now exporting.now) }
    ensures err { IfErr result (λ end. (end ≡ Status.WantOfMemory) ⊎ ExportEnds (framework_of read.now.framework)
        exporting.now.query read.now.answer read.now.certificate exporting.now.number end) }
    ensures told { IfErr result (λ end. IsSome (common_text end)) }
{
    let number = exporting.number as usize;
    let count = read.certificate.refutations.len();
    if number == 0 || number > count {
        return Err(Status::InputRefused(Refusal::NoRefutation(exporting.number)));
    }
    match export_refutation(
        alloc,
        &read.framework,
        &exporting.query,
        &read.answer,
        &read.certificate,
        number - 1,
    ) {
        Ok(exported) => Ok(exported),
        Err(Memory) => Err(Status::WantOfMemory),
    }
}

/// Checks the answer in one file with the certificate in another, on the framework in a third. The texts of a refutation
/// of the certificate where it is accepted and has that refutation, else how the run ends.
pub fn export_files<F: Files>(
    alloc: Global,
    files: &mut F,
    exporting: &Exporting,
    words: &CheckWords<'_>,
) -> Result<Exported, Status>
    ensures ok { IfOk result (IsExported (F.holds files.old) exporting.now (check_texts words.now)) }
    ensures err { IfErr result
        (EndsExporting (reading F.Files files.old files.new) exporting.now (check_texts words.now)) }
    ensures told { IfErr result (λ end. IsSome (common_text end)) }
    ensures quiet { ((role : ARole) → IsErrOf result (Status.ReadFault role) → ⊥)
        → F.read_count files.new ≡ F.read_count files.old }
    ensures others { (role : ARole) → role ≢ Role.Framework 1 → role ≢ Role.Answer → role ≢ Role.Certificate
        → F.read_count files.new role ≡ F.read_count files.old role }
    ensures same { F.holds files.new ≡ F.holds files.old }
    ensures writes { F.write_count files.new ≡ F.write_count files.old }
{
    let read = match read_accepted(alloc, files, &exporting.query, words) {
        Ok(read) => read,
        Err(end) => return Err(end),
    };
    let exported = export_read(alloc, &read, exporting);
    // As the check does: to take millions of lists back one by one would cost a twentieth of the time.
    forget(read);
    exported
}

/// The line that tells an export, its end included: how many variables, clauses and lines there are.
pub fn exported_line(alloc: Global, exported: &Exported) -> Result<String, Memory>
    ensures { IfOk result (λ text. string_bytes text ≡ exported_text exported.now) }
{
    let vars = exported.vars;
    let clauses = exported.written.clauses;
    let lines = exported.written.lines;
    Ok(format!(in alloc; "EXPORTED {vars} {clauses} {lines}\n")?)
}

/// The files of an export, in the order of writing: the CNF and the lines, whose names are `output` and an ending.
pub fn exported_list(
    alloc: Global,
    output: &str,
    exported: Exported,
) -> Result<Items<Written>, Memory>
    ensures { IfOk result (λ files. map file_text files ≡ exported_files output.entry.now exported) }
{
    let mut exported = exported;
    let cnf = replace(&mut exported.written.cnf, Bytes::new(alloc));
    let lrat = replace(&mut exported.written.lrat, Bytes::new(alloc));
    let mut files = Items::new(alloc);
    files.push(Written {
        name: format!(in alloc; "{output}.cnf")?,
        bytes: cnf,
    })?;
    files.push(Written {
        name: format!(in alloc; "{output}.lrat")?,
        bytes: lrat,
    })?;
    Ok(files)
}
