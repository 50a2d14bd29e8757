//! The Unix socket of a server: only the user that started the server may connect to it.

use rme_cli_messages::{BadArgument, CliFault, escape_controls};
use std::alloc::{AllocError, Global};
use std::fs::{DirBuilder, Metadata, Permissions};
use std::io::ErrorKind;
use std::os::unix::fs::{DirBuilderExt, FileTypeExt, MetadataExt, PermissionsExt};
use std::os::unix::net::{SocketAddr, UnixListener, UnixStream};
use std::path::Path;
use std::{fs, io};

/// The mode of the socket's file: only its user may connect.
const USER_ALONE: u32 = 0o600;

/// The mode of the folder in which it is created: only its user may enter.
const USERS_FOLDER: u32 = 0o700;

/// The number of names that are tried for that folder.
const MOST_NAMES: u32 = 1000;

/// The identity of a socket's file.
#[derive(Drop)]
pub struct SocketFile {
    path: String,
    device: u64,
    inode: u64,
}

impl SocketFile {
    pub fn path(&self) -> &str {
        self.path.as_str()
    }
}

/// Listens on a socket of this path. A socket without a listener is replaced; a socket with a listener, and any other
/// file, is refused.
pub fn listen_at(rt: &HostRuntime, path: String) -> Result<(UnixListener, SocketFile), CliFault> {
    if path.is_empty() {
        return Err(CliFault::BadArguments(BadArgument::NoFile("--socket")));
    }
    make_way(rt, path.as_str())?;
    let listener = listener_at(rt, path.as_str())?;
    match fs::symlink_metadata(rt, path.as_str()) {
        Ok(found) => Ok((listener, file_of(path, &found))),
        Err(error) => Err(socket_listen_failed(rt, path.as_str(), error)?),
    }
}

/// Listens on a socket of this path, where no file exists.
fn listener_at(rt: &HostRuntime, path: &str) -> Result<UnixListener, CliFault> {
    match bind_socket(rt, path) {
        Ok(listener) => Ok(listener),
        Err(error) if error.kind() == ErrorKind::AlreadyExists => Err(served_already(rt, path)?),
        Err(error) => Err(socket_listen_failed(rt, path, error)?),
    }
}

/// Removes the file of a socket, if it is still this one: another server may have replaced a socket without a listener.
pub fn remove(rt: &HostRuntime, file: &SocketFile) {
    if let Ok(found) = fs::symlink_metadata(rt, file.path.as_str()) {
        if found.dev() == file.device && found.ino() == file.inode {
            // A file that cannot be removed is replaced by the next server.
            let _ = fs::remove_file(rt, file.path.as_str());
        }
    }
}

fn file_of(path: String, found: &Metadata) -> SocketFile {
    SocketFile {
        path,
        device: found.dev(),
        inode: found.ino(),
    }
}

/// Removes a socket without a listener, and refuses any other file.
fn make_way(rt: &HostRuntime, path: &str) -> Result<(), CliFault> {
    if !is_socket(rt, path)? {
        return Ok(());
    }
    if is_served(rt, path)? {
        return Err(served_already(rt, path)?);
    }
    match fs::remove_file(rt, path) {
        Ok(()) => Ok(()),
        Err(error) => Err(socket_listen_failed(rt, path, error)?),
    }
}

/// Whether the path is a socket; any other file is refused.
fn is_socket(rt: &HostRuntime, path: &str) -> Result<bool, CliFault> {
    match fs::symlink_metadata(rt, path) {
        Ok(found) if found.file_type().is_socket() => Ok(true),
        Ok(_) => {
            let shown = escape_controls(rt.alloc(), path)?;
            Err(CliFault::BadArguments(BadArgument::NoSocket(shown)))
        }
        Err(error) if error.kind() == ErrorKind::NotFound => Ok(false),
        Err(error) => Err(socket_listen_failed(rt, path, error)?),
    }
}

/// Whether a process listens on the socket.
fn is_served(rt: &HostRuntime, path: &str) -> Result<bool, CliFault> {
    match UnixStream::connect(rt, path) {
        Ok(_) => Ok(true),
        Err(error) if error.kind() == ErrorKind::ConnectionRefused => Ok(false),
        Err(error) => Err(socket_listen_failed(rt, path, error)?),
    }
}

/// The fault if a server listens on the socket.
fn served_already(rt: &HostRuntime, path: &str) -> Result<CliFault, AllocError> {
    let shown = escape_controls(rt.alloc(), path)?;
    Ok(CliFault::BadArguments(BadArgument::ServedAlready(shown)))
}

/// The fault if a socket cannot be listened on for this reason.
fn socket_listen_failed(
    rt: &HostRuntime,
    path: &str,
    why: io::Error,
) -> Result<CliFault, AllocError> {
    let kind = why.kind();
    let shown = escape_controls(rt.alloc(), path)?;
    Ok(CliFault::on_file(kind, CliFault::ListenFailed(shown, why)))
}

/// Creates a listening socket and moves it to this path, where no file exists. It has its mode from its first moment
/// there, since it is created in a folder that others cannot enter.
fn bind_socket(rt: &HostRuntime, path: &str) -> io::Result<UnixListener> {
    // A path that is too long for clients is refused, even if the file could be created.
    let _ = SocketAddr::from_pathname(path)?;
    let folder = make_folder(rt, path)?;
    let made = bind_socket_from(rt, folder.as_str(), path);
    // A folder that cannot be removed does no harm.
    let _ = fs::remove_dir(rt, folder.as_str());
    made
}

fn bind_socket_from(rt: &HostRuntime, folder: &str, path: &str) -> io::Result<UnixListener> {
    let made = format!(in rt.alloc(); "{folder}/s")?;
    let listener = UnixListener::bind(rt, made.as_str())?;
    let put = match fs::set_permissions(rt, made.as_str(), Permissions::from_mode(USER_ALONE)) {
        Ok(()) => fs::hard_link(rt, made.as_str(), path),
        Err(error) => Err(error),
    };
    let _ = fs::remove_file(rt, made.as_str());
    put?;
    Ok(listener)
}

/// Creates a folder of the user's own beside a file, under a short free name, and answers its path.
fn make_folder(rt: &HostRuntime, path: &str) -> io::Result<String> {
    let mut builder = DirBuilder::new();
    builder.mode(USERS_FOLDER);
    for number in 0..MOST_NAMES {
        let folder = folder_beside(rt.alloc(), path, number)?;
        match builder.create(rt, folder.as_str()) {
            Ok(()) => return Ok(folder),
            Err(error) if error.kind() == ErrorKind::AlreadyExists => {}
            Err(error) => return Err(error),
        }
    }
    Err(io::Error::new(ErrorKind::Other, "no name is free for its folder"))
}

/// The name that is tried after this number of others.
fn folder_beside(alloc: Global, path: &str, number: u32) -> Result<String, AllocError> {
    match Path::new(path).parent() {
        Some(parent) if !parent.as_str().is_empty() => {
            let parent = parent.as_str();
            format!(in alloc; "{parent}/.s{number}")
        }
        _ => format!(in alloc; ".s{number}"),
    }
}
