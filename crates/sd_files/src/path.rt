// The folder and the name in a path.
ghost use Rattle.std.specs.Prelude.{◌≡◌};
ghost use Rattle.sd_files.specs.Path.{IsPlaceOf, folder_before};

/// The folder that a path names, and what comes after it.
#[derive(Clone, Copy)]
pub struct Place<'a> {
    pub folder: &'a str,
    pub name: &'a str,
}

/// The folder of a path is what comes before its last slash: `.` if there is no slash, and `/` if nothing comes before
/// it. Its name is what comes after.
pub fn split_path(path: &str) -> Place<'_>
    ensures { IsPlaceOf path.now result.folder.now result.name.now }
{
    match path.rsplit_once('/') {
        None => Place {
            folder: ".",
            name: path,
        },
        Some((front, name)) => Place {
            folder: folder_before(front),
            name,
        },
    }
}

// The folder before the last slash: the slash alone if that begins the path.
fn folder_before(front: &str) -> &str
    ensures { result.now ≡ folder_before front.now }
{
    if front.is_empty() { "/" } else { front }
}
