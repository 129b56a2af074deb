//! The command table.

/// A row for each name, those that are asked for most first: the name, its text, whether the command may write, and the words
/// behind the name. `..` stands for one or more keys, fields or pairs, as the word before it says. The commands about the
/// cluster have rows of their own.
///
/// `commands!(row_reader(argument, ..))` calls the macro `row_reader` with the arguments and all rows.
#[macro_export]
macro_rules! commands {
    ($reader:ident($($argument:tt),*)) => {
        $reader! {
            ($($argument),*)
            data {
                Get "get" read (key);
                Set "set" write (key value condition);
                Ping "ping" read ();
                Incr "incr" write (key);
                Hget "hget" read (key field);
                Hset "hset" write (key pairs ..);
                Mget "mget" read (keys ..);
                Mset "mset" write (pairs ..);
                Append "append" write (key value);
                Echo "echo" read (message);
                Setnx "setnx" write (key value);
                Getset "getset" write (key value);
                Getdel "getdel" write (key);
                Decr "decr" write (key);
                Incrby "incrby" write (key increment);
                Strlen "strlen" read (key);
                Del "del" write (keys ..);
                Exists "exists" read (keys ..);
                TypeOf "type" read (key);
                Hsetnx "hsetnx" write (key field value);
                Hmget "hmget" read (key fields ..);
                Hdel "hdel" write (key fields ..);
                Hexists "hexists" read (key field);
                Hlen "hlen" read (key);
                Hstrlen "hstrlen" read (key field);
                Hkeys "hkeys" read (key);
                Hvals "hvals" read (key);
                Hgetall "hgetall" read (key);
                Hincrby "hincrby" write (key field increment);
            }
            cluster {
                Cluster "cluster";
                Asking "asking";
                Migrate "migrate";
            }
        }
    };
}
