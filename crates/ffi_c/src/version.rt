// Which exports a library has.
ghost use Rattle.std.specs.Prelude.{◌≡◌};
ghost use Rattle.ffi.specs.Version.{version};

// The number of these exports. It is another wherever a name, a parameter, a result or the layout of lent memory is.
#[unsafe(no_mangle)]
pub extern "C" fn ffi_version() -> u32
    ensures { result ≡ version }
{
    ffi::version::ffi_version()
}
