ghost use Rattle.std.specs.Prelude.{◌≡◌, ◌++◌, IfOk, OnOk, string_bytes};
ghost use Rattle.ga_include.specs.Path.{folder_of, is_absolute, is_below, leads_up, parts_of, source_path};

use std::alloc::{AllocError, Global};

/// The name of the file that a name in another file means: it is relative to the folder of that
/// file, unless it begins with `/`. Fails only when out of memory. (Profile.)
pub fn source_path(alloc: Global, file: &str, name: &str) -> Result<String, AllocError>
    ensures { IfOk result (λ path. string_bytes path ≡ source_path file.now name.now) }
{
    let mut path = String::new(alloc);
    if !is_absolute(name) {
        push_folder(&mut path, file)?;
    }
    path.push_str(name)?;
    Ok(path)
}

/// Whether a name in a file means a file in its folder, or below: it doesn't begin with `/`, and no
/// part of it is `..`. (Profile.)
pub fn is_below(name: &str) -> bool
    ensures { result ≡ is_below name.now }
{
    !is_absolute(name) && !leads_up(name)
}

/// Whether a part of a file's name is `..`.
fn leads_up(name: &str) -> bool
    ensures { result ≡ leads_up name.now }
{
    let mut rest = name;
    while let Some((part, behind)) = rest.split_once('/') {
        if part == ".." {
            return true;
        }
        rest = behind;
    }
    rest == ".."
}

/// Adds the parts of a file's name before the last one, each with `/` behind it.
fn push_folder(path: &mut String, file: &str) -> Result<(), AllocError>
    ensures { OnOk result (string_bytes path.new
        ≡ string_bytes path.old ++ folder_of (parts_of file.now)) }
{
    let mut rest = file;
    while let Some((part, behind)) = rest.split_once('/') {
        path.push_str(part)?;
        path.push('/')?;
        rest = behind;
    }
    Ok(())
}

/// Whether the name of a file begins at the root.
fn is_absolute(name: &str) -> bool
    ensures { result ≡ is_absolute name.now }
{
    name.starts_with("/")
}
