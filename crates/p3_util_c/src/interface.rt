//! The name of the interface. Bindings refer to it, so that they cannot be linked with a library of
//! another version, and the linker's error says why. The number in the name changes if an export
//! changes or if a new export is used by bindings.

ghost use Rattle.std.specs.Prelude.{◌≡◌};

/// Returns the number of the interface, which is in the name.
#[unsafe(no_mangle)]
pub extern "C" fn p3_util_c_interface_3_library_and_bindings_are_of_one_version() -> usize
    ensures { result ≡ 3 }
{
    3
}
