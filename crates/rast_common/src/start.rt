//! How a program over a file starts.

/// The body of `main` of a program over the text of a file. It reads the words of the command line, and tells of the
/// program where these ask for that. It reads the request that they make, and the text of the file `request.file`. The
/// closure's body gives the status. What cannot be read is reported, and the status is 2.
#[macro_export]
macro_rules! over_file {
    ($rt:ident, $program:ident, $read:ident, |$request:ident, $text:ident, $out:ident, $err:ident| $status:expr) => {{
        let (mut $out, mut $err) = ($rt.stdout(), $rt.stderr());
        let Ok(words) = $crate::words::read_words(&$rt) else {
            return $crate::fault::exit_code($crate::fault::report(&mut $err, $program.usage));
        };
        if let Some(common) = $crate::words::read_common(words.as_slice()) {
            return $crate::fault::exit_code($program.tell(common, &mut $out, &mut $err));
        }
        let $request = match $read(words.as_slice()) {
            Ok(request) => request,
            Err(wrong) => {
                return $crate::fault::exit_code($program.refuse($rt.alloc(), &wrong, &mut $err));
            }
        };
        let $text = match std::fs::read_to_string(&$rt, $request.file) {
            Ok(text) => text,
            Err(error) => {
                let kind = error.kind();
                let status = $program.report_unread($rt.alloc(), $request.file, kind, &mut $err);
                return $crate::fault::exit_code(status);
            }
        };
        $crate::fault::exit_code($status)
    }};
}
