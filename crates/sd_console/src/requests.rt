// The text of the requests for volumes.
ghost use Rattle.std.specs.Prelude.{◌≡◌, ◌++◌, IfOk, OnOk};
ghost use Rattle.std.specs.List.{flat_map};
ghost use Rattle.std.specs.String.{string_bytes};
ghost use Rattle.sd_text.specs.Lines.{line};
ghost use Rattle.sd_console.specs.Requests.{count_line, request_line, requests_lines};

use sd_desk::Request;
use std::alloc::{AllocError, Global};

/// The requests for volumes, a line for each in their order, then how many they are. Each line ends with
/// a newline.
pub fn requests_text(alloc: Global, requests: &[Request]) -> Result<String, AllocError>
    ensures { IfOk result (λ text.
        string_bytes text ≡ flat_map line (requests_lines requests.now)) }
{
    let mut text = String::new(alloc);
    put_requests(&mut text, requests)?;
    put_count(&mut text, requests.len())?;
    Ok(text)
}

fn put_requests(text: &mut String, requests: &[Request]) -> Result<(), AllocError>
    ensures { OnOk result (string_bytes text.new
        ≡ string_bytes text.old ++ flat_map (λ request. line (request_line request)) requests.now) }
{
    for request in requests {
        put_request(text, request)?;
    }
    Ok(())
}

fn put_request(text: &mut String, request: &Request) -> Result<(), AllocError>
    ensures { OnOk result (string_bytes text.new
        ≡ string_bytes text.old ++ line (request_line request.now)) }
{
    let drive = request.drive.get();
    let pool = request.pool.as_str();
    let media = request.media.as_str();
    writeln!(text, "request {drive} {pool} {media}")
}

fn put_count(text: &mut String, count: usize) -> Result<(), AllocError>
    ensures { OnOk result (string_bytes text.new ≡ string_bytes text.old ++ line
        (count_line count)) }
{
    writeln!(text, "ok requests {count}")
}
