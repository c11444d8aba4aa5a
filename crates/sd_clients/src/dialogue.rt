// The daemon with its clients.
mod client;

use client::{make_folder, play};
use sd_conf::read_conf;
use sd_daemon::{Bounds, serve};
use sd_serve::Log;
use std::test::Fail;
use std::{fs, io, thread};

// The daemon in one thread, and two clients in others: a volume is labelled, and two sessions are appended and closed.
#[test]
fn serve_dialogue(rt: HostRuntime) -> Result<(), Fail> {
    let folder = make_folder(&rt)?;
    let text = format!(in rt.alloc();
        "port = 19103\n[[drive]]\nmedia = \"File\"\nfolder = \"{folder}\"\n"
    )?;
    let Ok(conf) = read_conf(rt.alloc(), text.as_str()) else {
        assert!(rt; false, "{text}");
        return Ok(());
    };
    let log: Log<io::Sink> = Log::new(None);
    let bounds = Bounds {
        talks: 2,
        wait: 0,
        metrics: None,
        until: None,
        adopt: false,
        adopt_damaged: &[],
    };
    let (served, played) = thread::join(
        &rt,
        || serve(&rt, rt, &conf, bounds, &log),
        || play(&rt, &rt),
    );
    fs::remove_dir_all(&rt, folder.as_str())?;
    assert!(rt; served.is_ok_and(|unsettled| unsettled.is_empty()));
    assert!(rt; played?);
    Ok(())
}
