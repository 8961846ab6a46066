//! What shells do before, around and behind a command. They start in the stage.

/// Removes what a stopped command left in the stage, which may have folders without permissions, and makes the stage's
/// folders. What stands there under their names may be a link: nothing is followed.
pub(crate) const REMAKE: &str = "\
for f in up wk; do [ -h $f ] || chmod -R u+rwx $f 2>/dev/null; done\n\
rm -rf --one-file-system -- ./up ./wk ./trace ./list && mkdir up wk\n";

/// In the namespaces: lays the overlay over the project, writes the byte 1 to its standard error, which is the end of a pipe,
/// once that is done, and starts what follows its own words. Its standard input is the standard error of the command, which has it
/// from the descriptor 8. These are ROOT DIR, the options of the overlay, the folder of the
/// stage that holds what it writes, how many other file systems are mounted in the project, the places of these from the top,
/// how many other places show the project, and for each of them the part of the project and the place. Where the stage holds it and
/// nothing else is mounted no other shell is started for that.
///
/// It ends with 124 where it can't enter DIR. The programs that it starts have the plain locale, since each of them would read
/// another one from many files; the command's own is added as a last word behind a sign, or nothing if it has none, and so is the
/// folder in which it was before. No other variable is set: it would be the command's.
pub(crate) const INSIDE: &str = "\
exec 8>&0 </dev/null 9>trace || exit 125\n\
set -- \"$@\" \"${LC_ALL+=$LC_ALL}\" \"${OLDPWD+=$OLDPWD}\"\n\
export LC_ALL=C\n\
lay() (\n\
root=$1 options=$3 up=$4 count=$5 low=/proc/self/fd/4\n\
shift 5\n\
[ $up = . ] || fill || exit 1\n\
if [ $count = 0 ]; then exec 4<\"$root\" || exit 1; else low=low; mkdir -p low && mount -n --rbind \"$root\" low || exit 1; fi\n\
mount -i -n -t overlay -o \"lowerdir=$low,upperdir=$up/up,workdir=$up/wk,$options\" overlay \"$root\" || exit 1\n\
while [ $count -gt 0 ]; do show \"$1\" || exit 1; count=$((count - 1)); shift; done\n\
count=$1\n\
shift\n\
while [ $count -gt 0 ]; do mount -n --rbind \"$root$1\" \"$2\" || exit 1; count=$((count - 1)); shift 2; done\n\
)\n\
show() {\n\
[ ! -e \"low/$1\" ] || { mount -c -n --bind \"low/$1\" \"$root/$1\" && mount -n -o remount,bind,ro \"$root/$1\"; }\n\
}\n\
fill() {\n\
mkdir -p $up && mount -i -n -t tmpfs -o size=50%,mode=700 tmpfs $up && mkdir $up/wk && cp -rp up $up && mknod $up/up/.tup c 0 0 && hide\n\
}\n\
hide() {\n\
while IFS= read -r file; do if [ -e \"$root/$file\" ] || [ -h \"$root/$file\" ]; then ln $up/up/.tup \"$up/up/$file\" || return 1; fi; done <own\n\
}\n\
if [ \"$4$5$6\" = .00 ]; then\n\
exec 4<\"$1\" && mount -i -n -t overlay -o \"lowerdir=/proc/self/fd/4,upperdir=up,workdir=wk,$3\" overlay \"$1\" && exec 4<&- || exit 125\n\
else\n\
lay \"$@\" || exit 125\n\
fi\n\
printf '\\001' >&2 || exit 125\n";

/// Behind that: enters DIR and starts what follows. The words of the other script are taken away.
pub(crate) const GO: &str = "\
cd \"$1/$2\" || exit 124\n\
shift 4\n\
shift $(($1 + 1))\n\
shift $((2 * $1 + 1))\n\
exec \"$@\"\n";

/// The same where what the overlay writes is held in memory: starts what follows, which makes a namespace
/// for processes of its own, and leaves in the stage what was written, and the list of it.
pub(crate) const GO_AND_KEEP: &str = "\
(\n\
cd \"$1/$2\" || exit 124\n\
shift 4\n\
shift $(($1 + 1))\n\
shift $((2 * $1 + 1))\n\
exec \"$@\"\n\
)\n\
set -- $?\n\
chmod -R u+rwx memory/up 2>/dev/null\n\
find memory/up -mindepth 1 -printf '%y%P\\0' >list.new && find memory/up -type c -delete && cp -r memory/up/. up && mv list.new list || exit 125\n\
exit $1\n";

/// Under the tracer: runs the command, and ends what it left running. It kills every process that it can signal, so it may
/// run only in a process namespace of its own. Its words are TEXT, the command's LC_ALL, and the folder in which it was before,
/// each of the two behind a sign, or empty if it has none.
pub(crate) const WRAP: &str = "\
exec 2>&8 8>&-\n\
if [ \"$2\" ]; then LC_ALL=${2#=}; else unset LC_ALL; fi\n\
if [ \"$3\" ]; then export OLDPWD=\"${3#=}\"; else unset OLDPWD; fi\n\
/bin/sh -c -- \"$1\" 9>&-; r=$?; kill -9 -1 2>/dev/null; exit $r\n";

/// Lists what the command left: for each entry the letter of its kind, its name and a zero byte.
pub(crate) const LIST: &str = "\
chmod -R u+rwx up 2>/dev/null\n\
find up -mindepth 1 -printf '%y%P\\0'\n";

/// Names the first program that isn't installed, and then fails.
pub(crate) const MISSING: &str = "\
need() { command -v \"$1\" >/dev/null || { printf 'tup_sh: %s\\n' \"$1 isn't there: install the package $2\" >&2; exit 1; }; }\n\
need strace strace; need unshare util-linux; need mount util-linux; need setpriv util-linux; need mknod coreutils\n";

/// Succeeds where the folder that is its word has no link, in whatever depth, besides the program's own folder.
pub(crate) const HAS_NO_LINK: &str = "\
found=$(find \"$1\" -path \"$1/.tup\" -prune -o -type l -print -quit) && [ -z \"$found\" ]\n";

/// Prints what commands in a folder need, a line each, and tries one there. Its words are the folder, this program, and who lays the
/// overlay.
pub(crate) const CHECK: &str = "\
row() { printf '%-11s %s\\n' \"$1\" \"$2\"; }\n\
kind() { findmnt -n -o FSTYPE -T \"$1\" 2>/dev/null || stat -f -c %T \"$1\"; }\n\
tried() { if said=$(\"$@\" 2>&1); then echo yes; else echo \"no: ${said:-it fails}\"; fi; }\n\
cd \"$1\" || exit 1\n\
row project \"$(kind .)\"\n\
place=.tup/stage; [ -d $place ] || place=.tup; [ -d $place ] || place=.\n\
row stage \"$(kind $place)\"\n\
if grep -qw overlay /proc/filesystems; then row overlay yes; else row overlay 'no: the kernel has none, or it has to be loaded (modprobe overlay)'; fi\n\
if [ \"$3\" = root ]; then row namespaces \"$(tried unshare -m true)\"; else row namespaces \"$(tried unshare -rm --pid --fork --mount-proc true)\"; fi\n\
row strace \"$(strace -V 2>&1 | head -n 1)\"\n\
row ptrace \"$(tried strace -o /dev/null true)\"\n\
if [ \"$3\" = root ]; then row 'laid by' root; else row 'laid by' 'a user, in a namespace of his own'; fi\n\
case $(kind $place) in overlay*|nfs*|9p|virtiofs|cifs|smb*|vfat|exfat|ntfs3) row written 'in memory, and then to the stage';; *) row written 'to the stage';; esac\n\
try=$(mktemp -d \"$PWD/$place/try.XXXXXX\") || exit 1\n\
stage=$try/.tup/stage/0\n\
mkdir -p \"$stage\" && : >\"$stage/own\" && \"$2\" \"$try\" . \"$stage\" 'echo tried >tried'\n\
if [ -s \"$stage/w0\" ]; then row commands run; status=0; else row commands \"don't run\"; status=1; fi\n\
chmod -R u+rwx \"$try\"; rm -rf --one-file-system -- \"$try\"\n\
[ $status = 0 ] || cat <<'END'\n\
\n\
In a container: docker or podman run --cap-add SYS_ADMIN --security-opt apparmor=unconfined;\n\
  Kubernetes securityContext.capabilities.add: [SYS_ADMIN]; GitHub container.options: --cap-add SYS_ADMIN --security-opt apparmor=unconfined;\n\
  GitLab runner config.toml: cap_add = [\"SYS_ADMIN\"] under [runners.docker]; ptrace, if it is refused: --cap-add SYS_PTRACE.\n\
Else as root: sysctl -w user.max_user_namespaces=10000 kernel.unprivileged_userns_clone=1 kernel.apparmor_restrict_unprivileged_userns=0\n\
  (as far as the system has them).\n\
END\n\
exit $status\n";
