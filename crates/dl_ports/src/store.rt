// Files by name.
ghost use Rattle.std.specs.Prelude.{◌≡◌, ◌⊎◌, List, Option, ℕ, OnOk, OnErr, IfOk, IfSome, IsSome, IsErrOf};
ghost use Rattle.std.specs.Option.{ForSome};
ghost use Rattle.dl_ports.specs.Counts.{HasCause};
ghost use Rattle.dl_ports.specs.Told.{WhereTold};
ghost use Rattle.dl_ports.specs.Files.{Files, bytes_of, and_name, SameBut, Writes, Renames};

use crate::{Port, PortError};

/// A store of files. Names are any text.
pub trait Store: Port {
    /// The files, where told: the bytes at each name that has a file.
    ghost files: { Self → Option Files };

    /// The names that `read` was asked for, in order, where told.
    ghost asked: { Self → Option (List (List ℕ)) };

    /// How often `write` and `publish` have failed. The count never falls, and stays at 2^64 - 1.
    ghost write_faults: { Self → ℕ };

    /// The bytes of a file, or `None` exactly where there is none.
    fn read(&mut self, name: &str) -> Result<Option<Vec<u8>>, PortError>
        ensures file { IfOk result (λ file. IfSome (files self.old)
            (λ files. bytes_of file ≡ files name.now)) }

        // The name was asked also where the call fails. Where memory ran out it may have been.
        ensures asked { OnOk result (asked self.new ≡ and_name (asked self.old) name.now) }
        ensures asked_failed { IsErrOf result PortError.Failed
            → asked self.new ≡ and_name (asked self.old) name.now }
        ensures asked_or_not { (asked self.new ≡ asked self.old)
            ⊎ (asked self.new ≡ and_name (asked self.old) name.now) }

        ensures same_files { files self.new ≡ files self.old }
        ensures cause { HasCause (Self.faults self.old) (Self.faults self.new) result }
        ensures same_write_faults { write_faults self.new ≡ write_faults self.old }
        ensures same_left { Self.left self.new ≡ Self.left self.old }
        ensures same_written { Self.written self.new ≡ Self.written self.old };

    /// Makes or replaces a file. After a refusal that name may have any file or none.
    fn write(&mut self, name: &str, bytes: &[u8]) -> Result<(), PortError>
        ensures written { OnOk result
            (WhereTold (Writes name.now bytes.now) (files self.old) (files self.new)) }
        ensures refused { OnErr result
            (WhereTold (SameBut name.now) (files self.old) (files self.new)) }
        ensures cause { HasCause (write_faults self.old) (write_faults self.new) result }
        ensures same_asked { asked self.new ≡ asked self.old }
        ensures same_faults { Self.faults self.new ≡ Self.faults self.old }
        ensures same_left { Self.left self.new ≡ Self.left self.old }
        ensures same_written { Self.written self.new ≡ Self.written self.old };

    /// Renames a file in one step, in place of what stood at the new name. A refusal may come
    /// before or after that step.
    fn publish(&mut self, from: &str, to: &str) -> Result<(), PortError>
        requires { ForSome (files self.old) (λ files. IsSome (files from.now)) }
        ensures renamed { OnOk result
            (WhereTold (Renames from.now to.now) (files self.old) (files self.new)) }
        ensures refused { OnErr result ((files self.new ≡ files self.old)
            ⊎ WhereTold (Renames from.now to.now) (files self.old) (files self.new)) }
        ensures cause { HasCause (write_faults self.old) (write_faults self.new) result }
        ensures same_asked { asked self.new ≡ asked self.old }
        ensures same_faults { Self.faults self.new ≡ Self.faults self.old }
        ensures same_left { Self.left self.new ≡ Self.left self.old }
        ensures same_written { Self.written self.new ≡ Self.written self.old };
}
