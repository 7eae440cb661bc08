// The text of a workload.
ghost use Rattle.std.specs.Prelude.{◌≡◌, ◌≤◌, ◌++◌, OnOk, IfOk};
ghost use Rattle.workload.specs.WorkloadText.{kernel_text, groups_text, workload_text};

use crate::groups::{put_group, put_line};
use shq_terms::NoMemory;
use std::alloc::Global;

/// The query of a workload, over the prefix of its text.
pub const QUERY: &str = "SubClassOf(:Q0 :Q3)";

/// What stands before the groups.
const KERNEL: &str = "\
Prefix(:=<http://example.org/w#>)
Ontology(<http://example.org/w>
SubClassOf(:Q0 :Q1)
SubClassOf(:Q0 ObjectIntersectionOf(:Q1 :P0))
SubClassOf(:Q1 :Q2)
SubClassOf(:Q1 ObjectIntersectionOf(:Q2 :P1))
SubClassOf(:Q2 :Q3)
SubClassOf(:Q2 ObjectIntersectionOf(:Q3 :P2))
SubObjectPropertyOf(:s :r)
";

/// Puts what stands before the groups last.
fn put_kernel(text: &mut Vec<u8>) -> Result<(), NoMemory>
    ensures { OnOk result (text.new.items ≡ text.old.items ++ kernel_text) }
{
    text.extend_from_slice(KERNEL.as_bytes())?;
    Ok(())
}

/// Puts the groups 1 to n last.
fn put_groups(alloc: Global, text: &mut Vec<u8>, n: u32) -> Result<(), NoMemory>
    requires { n ≤ 4000 }
    ensures { OnOk result (text.new.items ≡ text.old.items ++ groups_text n) }
{
    for before in 0..n {
        put_group(alloc, text, before + 1)?;
    }
    Ok(())
}

/// The document of a workload, in functional-style syntax: seven axioms on which [`QUERY`] depends, and n groups of
/// four axioms on which it does not.
#[tactic(auto, unfolding(crate::specs::WorkloadText::workload_text))]
pub fn generate(alloc: Global, n: u32) -> Result<Vec<u8>, NoMemory>
    requires least { 1 ≤ n }
    requires most { n ≤ 4000 }
    ensures { IfOk result (λ text. text.items ≡ workload_text n) }
{
    let mut text = Vec::new(alloc);
    put_kernel(&mut text)?;
    put_groups(alloc, &mut text, n)?;
    put_line(&mut text, b")")?;
    Ok(text)
}
