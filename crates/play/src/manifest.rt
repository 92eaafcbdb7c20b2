ghost use Rattle.std.specs.Prelude.{◌≡◌, IfOk};
ghost use Rattle.text_reader.specs.Gives.{IfRead, IsRead};
ghost use Rattle.play.specs.Manifest.{IsManifestOf};
ghost use Rattle.play.specs.ManifestReader as reader;

mod form;
mod read;

use sqlite_items::Items;
use std::alloc::{AllocError, Global};
use text_reader::{Cursor, or_none};

/// Numbers of functions.
pub type Numbers = Items<u32>;

/// A cluster of a manifest: its number, the length of its file, and its entries.
#[derive(Drop)]
pub struct ClusterLine {
    pub cluster: u32,
    pub bytes: u32,
    pub entries: Numbers,
}

pub type ClusterLines = Items<ClusterLine>;

/// A manifest of form 1 with one script: the length of the script's file, the numbers of its plain
/// functions in the order of the text, and the clusters.
#[derive(Drop)]
pub struct Manifest {
    pub script_bytes: u32,
    pub plain: Numbers,
    pub clusters: ClusterLines,
}

#[tactic(auto, unfolding(crate::specs::ManifestReader::read_manifest))]
fn manifest_of(alloc: Global, bytes: &[u8]) -> Result<Option<Manifest>, AllocError>
    ensures { IfOk result (λ found. found ≡ reader.read_manifest bytes.now) }
{
    match or_none(read::manifest(alloc, &mut Cursor::new(bytes)))? {
        Some(manifest) => Ok(form::is_manifest(alloc, &manifest)?.then_some(manifest)),
        None => Ok(None),
    }
}

/// The manifest whose text these bytes are, or `None` where they are no manifest's text. Fails only
/// for want of memory.
pub fn read_manifest(alloc: Global, bytes: &[u8]) -> Result<Option<Manifest>, AllocError>
    ensures reads { IfOk result (λ found. found ≡ reader.read_manifest bytes.now) }
    ensures sound { IfRead result (IsManifestOf bytes.now) }
    ensures complete { (m : Manifest) → IsManifestOf bytes.now m → IsRead result m }
{
    manifest_of(alloc, bytes)
}

#[cfg(test)]
mod tests {
    use super::*;
    use std::test::Fail;

    const SITE: &[u8] = b"doloto site 1\nform 1\nscript 1 117 1\ncluster 1 33\nentry 2 -\nend\n";

    const PLAIN_SITE: &[u8] = b"doloto site 1\nform 1\nscript 1 5 -\nend\n";

    fn is_refused(alloc: Global, bytes: &[u8]) -> Result<bool, AllocError> {
        Ok(read_manifest(alloc, bytes)?.is_none())
    }

    #[test]
    fn one_cluster(rt: HostRuntime) -> Result<(), Fail> {
        let manifest = read_manifest(rt.alloc(), SITE)?.ok_or("refused")?;
        assert_eq!(rt; manifest.script_bytes, 117);
        assert_eq!(rt; manifest.plain.as_slice(), [1].as_slice());
        assert_eq!(rt; manifest.clusters.len(), 1);
        let line = &manifest.clusters.as_slice()[0];
        assert_eq!(rt; line.cluster, 1);
        assert_eq!(rt; line.bytes, 33);
        assert_eq!(rt; line.entries.as_slice(), [2].as_slice());
        Ok(())
    }

    #[test]
    fn no_cluster(rt: HostRuntime) -> Result<(), Fail> {
        let manifest = read_manifest(rt.alloc(), PLAIN_SITE)?.ok_or("refused")?;
        assert_eq!(rt; manifest.script_bytes, 5);
        assert!(rt; manifest.plain.is_empty());
        assert!(rt; manifest.clusters.is_empty());
        Ok(())
    }

    #[test]
    fn several_clusters(rt: HostRuntime) -> Result<(), Fail> {
        let bytes =
            b"doloto site 1\nform 1\nscript 1 65535 9,65535,1\ncluster 2 0\nentry 2 -\nentry 7 -\n\
            cluster 4294967295 2147483648\nentry 3 -\nend\n";
        let manifest = read_manifest(rt.alloc(), bytes)?.ok_or("refused")?;
        assert_eq!(rt; manifest.plain.as_slice(), [9, 65535, 1].as_slice());
        assert_eq!(rt; manifest.clusters.len(), 2);
        let line = &manifest.clusters.as_slice()[1];
        assert_eq!(rt; line.cluster, 4294967295);
        assert_eq!(rt; line.bytes, 2147483648);
        assert_eq!(rt; line.entries.as_slice(), [3].as_slice());
        Ok(())
    }

    #[test]
    fn texts_cut_after_a_line(rt: HostRuntime) -> Result<(), Fail> {
        for (at, byte) in SITE.iter().enumerate() {
            if *byte == b'\n' && at + 1 < SITE.len() {
                assert!(rt; is_refused(rt.alloc(), &SITE[..at + 1])?);
            }
        }
        assert!(rt; is_refused(rt.alloc(), &SITE[..SITE.len() - 1])?);
        Ok(())
    }

    #[test]
    fn texts_of_another_form(rt: HostRuntime) -> Result<(), Fail> {
        let texts: [&[u8]; 8] = [
            b"doloto site 1\nform 1\nscript 1 117 1\ncluster 1 33\nentry 2 -\nend\n\n",
            b"doloto site 1\nform 2\nscript 1 117 1\ncluster 1 33\nentry 2 -\nend\n",
            b"doloto site 1\nform 1\nscript 1 117 1\ncluster 1 33\nentry 2 -\nentry 2 -\nend\n",
            b"doloto site 1\nform 1\nscript 1 117 2\ncluster 1 33\nentry 2 -\nend\n",
            b"doloto site 1\nform 1\nscript 1 117 1\ncluster 2 33\nentry 2 -\ncluster 2 33\n\
            entry 3 -\nend\n",
            b"doloto site 1\nform 1\nscript 1 65536 1\ncluster 1 33\nentry 2 -\nend\n",
            b"doloto site 1\nform 1\nscript 1 0117 1\ncluster 1 33\nentry 2 -\nend\n",
            b"doloto site 1\nform 1\nscript 1 117 1\ncluster 1 33\nend\n",
        ];
        for text in texts {
            assert!(rt; is_refused(rt.alloc(), text)?);
        }
        Ok(())
    }
}
