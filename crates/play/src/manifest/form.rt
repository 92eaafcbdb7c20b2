ghost use Rattle.std.specs.Prelude.{◌≡◌, All, IfOk};
ghost use Rattle.std.specs.List.{list_all};
ghost use Rattle.first_grammar.specs.First.{IsFunctionNumber};
ghost use Rattle.play.specs.Manifest.{all_numbers, cluster_numbers};
ghost use Rattle.js_tree.specs.Numbering.{is_function_number};
ghost use Rattle.play.specs.ManifestReader as reader;

use crate::manifest::{ClusterLine, Manifest};
use js_tree::LAST_FUNCTION_NUMBER;
use std::alloc::{AllocError, Global};

/// The greatest length of a script's file, in bytes.
const MOST_SCRIPT_BYTES: u32 = 65535;

/// The greatest length of a cluster's file, in bytes.
const MOST_CLUSTER_BYTES: u32 = 1 << 31;

fn is_function_number(number: u32) -> bool
    ensures { result ≡ is_function_number number }
{
    1 <= number && number <= LAST_FUNCTION_NUMBER
}

fn are_function_numbers(numbers: &[u32]) -> bool
    ensures { result ≡ list_all is_function_number numbers.now }
{
    numbers.iter().all(|number| is_function_number(*number))
}

/// Whether each number is greater than the one before it, and the first is not 0.
fn rises(numbers: &[u32]) -> bool
    ensures { result ≡ reader.rises 0 numbers.now }
{
    let mut before = 0;
    for number in numbers {
        if *number <= before {
            return false;
        }
        before = *number;
    }
    true
}

/// `rises` of the clusters' numbers.
fn clusters_rise(clusters: &[ClusterLine]) -> bool
    ensures { result ≡ reader.rises 0 (cluster_numbers clusters.now) }
{
    let mut before = 0;
    for line in clusters {
        if line.cluster <= before {
            return false;
        }
        before = line.cluster;
    }
    true
}

fn is_cluster_line(line: &ClusterLine) -> bool
    ensures { result ≡ reader.is_cluster_line line.now }
{
    let entries = line.entries.as_slice();
    line.bytes <= MOST_CLUSTER_BYTES
        && !entries.is_empty()
        && rises(entries)
        && are_function_numbers(entries)
}

fn are_cluster_lines(clusters: &[ClusterLine]) -> bool
    ensures { result ≡ list_all reader.is_cluster_line clusters.now }
{
    clusters.iter().all(|line| is_cluster_line(line))
}

/// The numbers of the functions that a manifest names, in the order of its text.
fn all_numbers(alloc: Global, manifest: &Manifest) -> Result<Vec<u32>, AllocError>
    ensures { IfOk result (λ numbers. numbers.items ≡ all_numbers manifest.now) }
{
    let mut numbers = Vec::from_slice(alloc, manifest.plain.as_slice())?;
    for line in manifest.clusters.as_slice() {
        numbers.extend_from_slice(line.entries.as_slice())?;
    }
    Ok(numbers)
}

/// Whether no number stands twice.
fn is_distinct(mut numbers: Vec<u32>) -> bool
    requires { All IsFunctionNumber numbers.items }
    ensures { result ≡ reader.is_distinct numbers.items }
{
    numbers.sort_unstable();
    rises(&numbers)
}

/// Whether each line keeps its bounds, and the clusters rise.
#[tactic(auto, unfolding(crate::specs::ManifestReader::has_lines_of_form))]
fn has_lines_of_form(manifest: &Manifest) -> bool
    ensures { result ≡ reader.has_lines_of_form manifest.now }
{
    let clusters = manifest.clusters.as_slice();
    manifest.script_bytes <= MOST_SCRIPT_BYTES
        && are_function_numbers(manifest.plain.as_slice())
        && are_cluster_lines(clusters)
        && clusters_rise(clusters)
}

/// Whether what was read is a manifest.
#[tactic(auto, unfolding(crate::specs::ManifestReader::is_manifest))]
pub fn is_manifest(alloc: Global, manifest: &Manifest) -> Result<bool, AllocError>
    ensures { IfOk result (λ b. b ≡ reader.is_manifest manifest.now) }
{
    if !has_lines_of_form(manifest) {
        return Ok(false);
    }
    Ok(is_distinct(all_numbers(alloc, manifest)?))
}
