// The page for operators. demo/embed.py writes this of demo/watch.html.

/// The page, in HTML.
pub(crate) const PAGE: &str = "\
<!doctype html>\n\
<html lang=\"en\"><head><meta charset=\"utf-8\"><title>LRA coordinator</title>\n\
<meta name=\"viewport\" content=\"width=device-width, initial-scale=1\">\n\
<meta http-equiv=\"Content-Security-Policy\" content=\"default-src 'none'; connect-src 'self'; img-src data:; style-src 'unsafe-inline'; script-src 'unsafe-inline'; base-uri 'none'; form-action 'none'\">\n\
<link rel=\"icon\" href=\"data:,\">\n\
<style>:root{color-scheme:light;font:1rem/1.45 system-ui,sans-serif;--text:#111827;--soft:#4b5563;--line:#d1d5db;--page:#fff;--raised:#f3f4f6;--link:#1d4ed8;--back:91%;--front:22%;--failed:#991b1b;--edge:#dc2626;--wait:#ca8a04}@media (prefers-color-scheme:dark){:root{color-scheme:dark;--text:#e5e7eb;--soft:#a3acba;--line:#374151;--page:#0f1623;--raised:#1b2434;--link:#93c5fd;--back:22%;--front:91%;--failed:#b91c1c;--edge:#f87171;--wait:#ca8a04}}*{box-sizing:border-box}body{margin:0 auto;max-width:80rem;padding:1rem;color:var(--text);background:var(--page);overflow-wrap:anywhere}h1{font-size:1.4rem;margin:0}h2{font-size:.85rem;margin:0;color:var(--soft)}p{margin:.4rem 0}ul{list-style:none;margin:0;padding:0}header > div,#hosts{display:flex;flex-wrap:wrap;gap:.4rem;align-items:center;margin:.5rem 0}[role=alert],#note{background:var(--failed);color:#fff;padding:.4rem .7rem;border-radius:.3rem}#note{background:#166534}p:empty{display:none}button,input{font:inherit;color:inherit;background:var(--raised);border:1px solid var(--line);border-radius:.3rem;padding:.15rem .6rem}button{cursor:pointer;min-width:1.5rem;min-height:1.5rem}:focus-visible{outline:2px solid var(--link);outline-offset:1px}input{flex:1 1 14rem;max-width:26rem;background:var(--page)}::placeholder{color:var(--soft);opacity:1}meter{width:8rem;vertical-align:middle}.soft,code,th{color:var(--soft)}code,small{font-size:.8rem}.badge{border-radius:.3rem;padding:.05rem .45rem;white-space:nowrap;justify-self:start}.badge,.vain,.late{background:hsl(var(--hue) var(--deep,75%) var(--back));color:hsl(var(--hue) var(--deep,75%) var(--front))}#hosts button{text-align:left}.vain,.failed{--hue:0;border-color:var(--edge)}.late{--hue:45;border-color:var(--wait)}button[aria-pressed=true]{background:var(--text);color:var(--page)}.active{--hue:222}.closing{--hue:45}.cancelling{--hue:24}.closed{--hue:142}.cancelled{--hue:220;--deep:9%}.failed{border:1px solid}#list > li{border-top:1px solid var(--line);content-visibility:auto;contain-intrinsic-size:auto 2.3rem;border-left:4px solid transparent;padding:.35rem .4rem}#list > .head{border:0;padding:.9rem 0 .2rem}#list > .stuck{border-left-color:var(--edge)}#list > .slow{border-left-color:var(--wait)}.stuck .what b{font-weight:600}.dim > .line{color:var(--soft);filter:grayscale(1)}#list > .open{background:var(--raised)}.line{display:grid;grid-template-columns:8.5rem 9.5rem 1fr auto;gap:0 .8rem;align-items:center;cursor:pointer}.name{border:0;background:none;padding:0 .2rem;margin-left:calc(var(--depth) * .9rem);text-align:left;font-weight:600;white-space:nowrap}.what b{font-weight:400}.what small{display:block;color:var(--soft);white-space:pre-line}table{border-collapse:collapse;width:100%}caption{position:absolute;width:1px;height:1px;overflow:hidden;clip-path:inset(50%)}th,td{text-align:left;vertical-align:top;padding:.3rem .8rem .3rem 0;border-top:1px solid var(--line)}thead th{border:0;font-size:.85rem;font-weight:500;white-space:nowrap}td button{margin:0 .3rem .2rem 0}td div{font-size:.85rem}td .vain:not(:empty),td .late{padding:.1rem .4rem;border-radius:.3rem}.link{background:none;border:0;padding:0;color:var(--link);text-decoration:underline}dialog{color:inherit;background:var(--page);border:1px solid var(--line);border-radius:.5rem;max-width:min(32rem,100% - 1.2rem);padding:1.2rem}dialog h2{font-size:1.1rem;color:inherit}dialog::backdrop{background:#0009}dialog div{display:flex;gap:.5rem;margin-top:1rem}@media (max-width:48rem){body{padding:.6rem}.line{grid-template-columns:auto 1fr;gap:.15rem .6rem}.what,.line code{grid-column:1 / -1}table,tbody,tr,td,tbody th{display:block;border:0;padding:.1rem 0}tbody th::before{content:\"Member \"}tr{border-top:1px solid var(--line);padding:.3rem 0}thead,.keys{display:none}}</style></head>\n\
<body>\n\
<header><h1 id=\"head\">LRA coordinator</h1>\n\
<p id=\"trouble\" role=\"alert\"></p><p id=\"away\" role=\"alert\"></p><p id=\"places\" role=\"alert\"></p><p id=\"note\" role=\"status\"></p>\n\
<p><meter id=\"full\" max=\"256\" low=\"192\" high=\"231\" optimum=\"0\" aria-label=\"Places taken\" hidden></meter> <span id=\"sum\">Asking the node ..</span></p>\n\
<ul id=\"hosts\" aria-label=\"Hosts whose calls fail\"></ul>\n\
<div id=\"chips\" role=\"group\" aria-label=\"Show by status\"></div>\n\
<div><input id=\"text\" type=\"search\" aria-label=\"Show by id, or by host of a participant\" placeholder=\"Id, or host of a participant\" autocomplete=\"off\" spellcheck=\"false\">\n\
<button id=\"hold\" aria-pressed=\"false\">Pause</button>\n\
<span class=\"soft keys\">Keys: j and k move, Enter opens, / filters, Esc closes</span></div></header>\n\
<main><ul id=\"list\" aria-label=\"LRAs\"></ul><p id=\"none\" class=\"soft\"></p></main>\n\
<dialog id=\"ask\" aria-labelledby=\"what\"><h2 id=\"what\"></h2><p id=\"does\"></p><p><code id=\"call\"></code></p><p id=\"came\" role=\"alert\"></p>\n\
<div><button id=\"yes\"></button><button id=\"no\">Leave it</button></div></dialog>\n\
<p id=\"signs\" hidden>&#9679;&#8230;&#10003;&#10007;&#8634;&#8617;&#9492;&#9888;</p>\n\
<script>\n\
const $=id=>document.getElementById(id),SIGNS=[...$(\"signs\").textContent],LINE=String.fromCharCode(10),ASKS=3,SEARCHES=20;\n\
const HEADS=[\"Calls fail, the longest first\",\"Failed\",\"Still to be notified, or to forget\",\"Ending\",\"Active\",\"Ended\"];\n\
const LOOKS={Active:0,Closing:1,Completing:1,Closed:2,Completed:2,Cancelling:4,Compensating:4,Cancelled:5,Compensated:5};\n\
const KINDS=[\"active\",\"closing\",\"closed\",\"failed\",\"cancelling\",\"cancelled\"];\n\
const TASKS={status:\"be asked for its status\",after:\"be notified of the end\"};\n\
const CAUSES={journal:\"its journal fails, so it stores nothing. Is the disk full?\",behind:\"it hasn't heard from the other nodes yet.\",ending:\"it is ending.\",disk:\"a call has waited seconds for its disk. Does the disk hang?\",copies:\"too few other nodes have stored its facts, or another process runs as this node.\"};\n\
const PURGES={due:\"due\",E8:\"not before it has ended\",E9:\"with its root\",E10:\"a participant must still forget\",E24:\"a listener must still be notified\"};\n\
let node={},ready={ready:true},lras=new Map(),calls=new Map(),fault=\"\",opened=null,status=\"\",held=false,at=0,wake=()=>{};\n\
let pulled=new Map(),most=256,counted=0,unfolded=false;\n\
const infos=new Map(),ends=new Map(),seen=new Map(),rows=new Map();\n\
\n\
const asked=path=>fetch(path,{cache:\"no-store\",signal:AbortSignal.timeout(15000)});\n\
async function get(path,sure){\n\
const answer=await asked(path),body=await answer.json();\n\
if(sure&&!answer.ok)throw Error(body.refused||answer.status);\n\
return body;\n\
}\n\
async function learn(id){\n\
const body=await get(\"/lra/\"+id);\n\
if(body.members)infos.set(id,{body,at:Date.now()});\n\
}\n\
async function readCounts(){\n\
const answer=await asked(\"/metrics\"),text=await answer.text(),found=new Map();\n\
for(const line of text.split(LINE)){\n\
const value=Number(line.split(\" \").pop());\n\
if(line.startsWith(\"lra_pulled_seconds{\"))found.set(parseInt(line.slice(line.indexOf(\"from=\")+6)),value);\n\
if(line.startsWith(\"lra_held_limit{\"))most=value;\n\
}\n\
if(answer.ok){pulled=found;counted=Date.now();}\n\
}\n\
function turn(it){\n\
if(it.lra===opened)return[0,0];\n\
if(failed(it.status))return[60,1];\n\
if(ending(it.status))return[5,1];\n\
return sought()?it.status===\"Active\"?[60,2]:[1e9,3]:null;\n\
}\n\
async function round(){\n\
if(!node.node)node=await get(\"/health\",true);\n\
ready=await get(\"/ready\");\n\
if(Date.now()- counted>=5000)await readCounts();\n\
const found=new Map(),listed=new Map(),first=!at,due=[];\n\
for(let path=\"/lras\",n=0;path&&n<400;n++){\n\
const page=await get(path,true);\n\
for(const it of page.lras)found.set(it.lra,it);\n\
path=page.next&&\"/lras?after=\"+page.next;\n\
}\n\
for(const it of(await get(\"/calls\",true)).calls)if(found.has(it.lra))listed.set(it.lra,[...listed.get(it.lra)||[],it]);\n\
for(const list of listed.values())list.sort((a,b)=>mild(a)- mild(b));\n\
lras=found;\n\
calls=listed;\n\
at=Date.now();\n\
for(const map of[infos,ends,seen])for(const id of map.keys())if(!lras.has(id))map.delete(id);\n\
for(const it of lras.values()){\n\
if(!ended(it.status))ends.set(it.lra,null);\n\
else if(!ends.get(it.lra))ends.set(it.lra,{at,seen:!first});\n\
if(!seen.has(it.lra))seen.set(it.lra,at);\n\
const info=infos.get(it.lra),when=turn(it);\n\
if(when&&(info?.body.status!==it.status||at - info.at>=when[0]*1000))due.push([when[1],info?.at||0,it.lra]);\n\
}\n\
due.sort((a,b)=>a[0]- b[0]||a[1]- b[1]);\n\
for(const it of due.slice(0,sought()?SEARCHES:ASKS))await learn(it[2]);\n\
}\n\
async function run(){\n\
for(let bad=0;;){\n\
const start=performance.now();\n\
if(!held){\n\
try{await round();fault=\"\";bad=0;draw();}catch(error){fault=error.message;bad++;summary(rows.size);}\n\
}\n\
const pause=held?1e9:document.hidden?20000:Math.max(1000,2*(performance.now()- start),Math.min(bad*1000,10000));\n\
await new Promise(done=>{wake=done;setTimeout(done,pause);});\n\
}\n\
}\n\
\n\
const name=id=>home(id)+\".\"+(BigInt(\"0x\"+id.slice(19,23)+id.slice(24))&(1n<<62n)- 1n);\n\
const home=id=>parseInt(id.slice(15,18),16);\n\
const host=link=>{try{return new URL(link).host;}catch{return String(link);}};\n\
const age=s=>{for(const[size,unit]of[[86400,\"days\"],[3600,\"h\"],[60,\"min\"]])if(s>=2*size)return Math.floor(s/size)+\" \"+unit;return Math.round(s)+\" s\";};\n\
const minutes=s=>s<120?\"1 min\":age(s);\n\
const sought=()=>$(\"text\").value.trim().toLowerCase().replace(\"urn:uuid:\",\"\");\n\
const many=(n,what)=>n+\" \"+what+(n===1?\"\":\"s\");\n\
const failed=s=>s.startsWith(\"Failed\"),ending=s=>s===\"Closing\"||s===\"Cancelling\",ended=s=>s!==\"Active\"&&!ending(s);\n\
const open=s=>s===\"Completing\"||s===\"Compensating\";\n\
const mild=c=>c.kind===\"after\"||c.kind===\"forget\";\n\
const hangs=it=>calls.has(it.lra)&&!mild(calls.get(it.lra)[0]);\n\
const group=it=>hangs(it)?0:failed(it.status)?1:calls.has(it.lra)?2:ending(it.status)?3:it.status===\"Active\"?4:5;\n\
const linkOf=m=>m.links.compensate||m.links.complete||m.links.after;\n\
const vain=c=>many(c.times,\"call\")+\" failed in \"+age(c.since)+\"; last: \"+c.came+\"; \"+(c.next===null?\"being called, or next in line\":\"next in \"+age(c.next));\n\
const who=c=>\"Member \"+c.member+\" at \"+host(c.link)+\", to \"+(TASKS[c.kind]||c.kind);\n\
function what(it){\n\
const mine=calls.get(it.lra),members=infos.get(it.lra)?.body.members,end=ends.get(it.lra),text=[];\n\
if(mine)return[who(mine[0]),[vain(mine[0]),...mine.slice(1,4).map(c=>who(c)+\": \"+vain(c)),...mine[4]?[\"and \"+many(mine.length - 4,\"more call\")]:[]].join(LINE)];\n\
const hot=(members||[]).filter(m=>m.links&&(failed(it.status)?failed(m.status):ending(it.status)&&open(m.status)));\n\
for(const m of hot.slice(0,2))text.push(\"member \"+m.member+\" at \"+host(linkOf(m))+\" is \"+m.status+(m.completed===\"busy\"||m.compensated===\"busy\"?\", busy\":\"\"));\n\
if(hot.length>2)text.push(\"and \"+(hot.length - 2)+\" more\");\n\
if(!hot.length)text.push(many(it.members,\"member\"));\n\
const active=it.status===\"Active\"&&(Date.now()- seen.get(it.lra))/1000;\n\
if(active>=60)text.push(\"seen here for \"+minutes(active));\n\
if(it.deadline&&it.status===\"Active\")text.push(it.deadline>Date.now()?\"deadline in \"+age((it.deadline - Date.now())/1000):\"its deadline has come\");\n\
const s=end&&(Date.now()- end.at)/1000;\n\
if(end&&(end.seen||s>=60))text.push(\"ended \"+(end.seen?\"\":\"over \")+age(s)+\" ago\");\n\
text[0]=text[0][0].toUpperCase()+text[0].slice(1);\n\
return[text.join(\"; \"),\"\"];\n\
}\n\
\n\
const put=(it,text)=>{if(it.said!==text)it.textContent=it.said=text;};\n\
const aria=(it,key,value)=>it.setAttribute(\"aria-\"+key,value);\n\
function make(tag,kind,...inner){\n\
const it=document.createElement(tag);\n\
if(kind)it.className=kind;\n\
it.append(...inner);\n\
return it;\n\
}\n\
function button(text,kind,act,label){\n\
const it=make(\"button\",kind,text);\n\
it.onclick=act;\n\
if(label)aria(it,\"label\",label);\n\
return it;\n\
}\n\
function dress(it,s){\n\
if(it.of===s)return it;\n\
const sign=LOOKS[it.of=s]??3;\n\
it.className=\"badge \"+KINDS[sign];\n\
it.replaceChildren(make(\"span\",\"\",SIGNS[sign]),\" \"+s);\n\
aria(it.firstChild,\"hidden\",true);\n\
return it;\n\
}\n\
\n\
function hits(it,text){\n\
if(status===\"vain\"?!calls.has(it.lra):status&&it.status!==status)return false;\n\
const links=(calls.get(it.lra)||[]).map(c=>c.link);\n\
if(status!==\"vain\")for(const m of infos.get(it.lra)?.body.members||[])links.push(...Object.values(m.links||{}));\n\
return!text||it.lra.includes(text)||name(it.lra).startsWith(text)||links.some(l=>l&&host(l).includes(text));\n\
}\n\
function order(){\n\
const below=new Map(),tops=[],list=[],wanted=sought();\n\
for(const it of lras.values())if(!lras.has(it.parent))tops.push(it);else if(below.has(it.parent))below.get(it.parent).push(it);else below.set(it.parent,[it]);\n\
const weigh=it=>{\n\
const mine=(calls.get(it.lra)||[]).filter(c=>!mild(c)||!hangs(it)),is={it,hit:hits(it,wanted),group:group(it),since:Math.max(0,...mine.map(c=>c.since)),below:(below.get(it.lra)||[]).map(weigh)};\n\
is.shown=is.hit||is.below.some(b=>b.shown);\n\
for(const b of is.below)if(b.group<=is.group){is.since=b.group<is.group?b.since:Math.max(is.since,b.since);is.group=b.group;}\n\
return is;\n\
};\n\
const walk=(is,depth)=>{if(is.shown){list.push([is,depth]);for(const b of is.below)walk(b,depth+1);}};\n\
let last=-1;\n\
for(const tree of tops.map(weigh).sort((a,b)=>a.group - b.group||b.since - a.since||(a.it.lra<b.it.lra?-1:1))){\n\
if(tree.shown&&tree.group!==last)list.push([last=tree.group]);\n\
walk(tree,0);\n\
}\n\
return list;\n\
}\n\
function row(id){\n\
const key=button(\"\",\"name\",()=>toggle(id)),badge=make(\"span\"),head=make(\"b\"),tail=make(\"small\"),more=make(\"div\"),words=make(\"span\",\"what\",head,tail);\n\
const line=make(\"div\",\"line\",key,badge,words,make(\"code\",\"\",id)),it=Object.assign(make(\"li\",\"\",line,more),{key,badge,head,tail,more});\n\
aria(key,\"label\",\"LRA \"+name(id));\n\
aria(key,\"describedby\",(badge.id=\"status-\"+id)+\" \"+(words.id=\"words-\"+id));\n\
line.onclick=event=>{if(!event.target.closest(\"button\")&&!String(getSelection()))toggle(id);};\n\
return it;\n\
}\n\
function draw(){\n\
const focus=document.activeElement,wanted=new Map(),list=$(\"list\");\n\
for(const[is,depth]of order()){\n\
const isHead=depth===undefined,id=isHead?is:is.it.lra,it=rows.get(id)||(isHead?make(\"li\",\"head\",make(\"h2\",\"\",HEADS[is])):row(id));\n\
rows.set(id,it);\n\
wanted.set(id,it);\n\
if(isHead)continue;\n\
const kind=(hangs(is.it)||failed(is.it.status)?\"stuck \":calls.has(id)?\"slow \":\"\")+(is.hit?\"\":\"dim \")+(id===opened?\"open\":\"\"),words=what(is.it);\n\
if(it.kind!==kind){it.className=it.kind=kind;aria(it.key,\"expanded\",id===opened);}\n\
if(it.depth!==depth)it.style.setProperty(\"--depth\",it.depth=depth);\n\
put(it.key,(depth?SIGNS[6]+\" \":\"\")+name(id));\n\
dress(it.badge,is.it.status);\n\
put(it.head,words[0]);\n\
put(it.tail,words[1]);\n\
if(it.more.hidden===(id===opened))it.more.hidden=id!==opened;\n\
if(id===opened)details(it.more,is.it);\n\
}\n\
for(const[id,it]of rows)if(!wanted.has(id)){it.remove();rows.delete(id);}\n\
let here=list.firstChild;\n\
for(const it of wanted.values()){\n\
if(here!==it&&here?.nextSibling===it){list.append(here);here=it;}\n\
if(here===it)here=it.nextSibling;else list.insertBefore(it,here);\n\
}\n\
if(focus!==document.activeElement&&focus.isConnected)focus.focus({preventScroll:true});\n\
summary(wanted.size);\n\
}\n\
function alarms(){\n\
const away=[...pulled].filter(p=>p[1]>60),taken={},full=[],near=[];\n\
for(const id of lras.keys())taken[home(id)]=(taken[home(id)]||0)+1;\n\
for(const[h,n]of Object.entries(taken))if(n>=most)full.push(h);else if(n>.9*most)near.push(h+\" (\"+n+\" of \"+most+\")\");\n\
const homes=list=>(list.length>1?\"homes \":\"home \")+list.join(\", \")+\". \";\n\
const silent=away.map((p,i)=>(i?\", node \"+p[0]:\"Node \"+p[0]+\" has been silent\")+\" for \"+minutes(p[1])).join(\"\");\n\
put($(\"away\"),silent&&silent+\": calls for \"+(away.length>1?\"their\":\"its\")+\" LRAs wait there. Start it, or repair the network.\");\n\
put($(\"places\"),(full.length?\"Full: \"+homes(full)+\"No LRA can be begun there. \":\"\")+(near.length?\"Nearly full: \"+homes(near):\"\")+(full.length+near.length?\"Purge ended LRAs there, or start the node with keep=MS.\":\"\"));\n\
return silent||full.length+near.length;\n\
}\n\
function summary(shown){\n\
const alarm=alarms(),count={},hosts=new Map(),own=[...lras.keys()].filter(id=>home(id)===node.node).length,when=new Date(at).toLocaleTimeString();\n\
for(const it of lras.values())count[it.status]=(count[it.status]||0)+1;\n\
for(const it of[...calls.values()].flat().sort((a,b)=>mild(a)- mild(b)||b.since - a.since)){\n\
const key=host(it.link),h=hosts.get(key)||{n:0,since:it.since,came:it.came,mild:mild(it)};\n\
h.n++;\n\
hosts.set(key,h);\n\
}\n\
const bad=(count.FailedToClose||0)+(count.FailedToCancel||0),of=node.node?\", node \"+node.node+\" of \"+node.nodes:\"\";\n\
put($(\"head\"),\"LRA coordinator\"+of);\n\
document.title=(fault||!ready.ready||alarm?\"! \":\"\")+(calls.size?calls.size+\" failing, \":\"\")+(bad?bad+\" failed, \":\"\")+many(lras.size,\"LRA\")+of;\n\
put($(\"trouble\"),(ready.ready?\"\":\"The node isn't ready: \"+(CAUSES[ready.cause]||ready.cause)+\" \")+(fault&&\"The node doesn't answer as it should: \"+fault+\".\"+(at?\" This page shows what it answered at \"+when+\".\":\"\")));\n\
if(!at)return;\n\
$(\"full\").max=most;\n\
$(\"full\").low=most*.75;\n\
$(\"full\").high=most*.9;\n\
$(\"full\").value=own;\n\
$(\"full\").hidden=false;\n\
put($(\"sum\"),\"This node holds \"+own+\" of at most \"+most+\" LRAs of its own. \"+(node.nodes>1?many(lras.size,\"LRA\")+\" of all nodes together. A node sees only its own failing calls, so look at the other nodes too. \":\"\")+(held?\"Paused since \":\"As of \")+when+\".\");\n\
showHosts([...hosts]);\n\
chip(\"\",\"All\",lras.size);\n\
chip(\"vain\",\"Calls fail\",calls.size);\n\
for(const s of[\"Active\",\"Closing\",\"Cancelling\",\"FailedToClose\",\"FailedToCancel\",\"Closed\",\"Cancelled\"])chip(s,s,count[s]||0);\n\
const unasked=sought()?[...lras.keys()].filter(id=>!infos.has(id)).length:0;\n\
put($(\"none\"),(shown?\"\":lras.size?\"No LRA matches. \":\"This node holds no LRA. \")+(unasked?\"The hosts of \"+many(unasked,\"LRA\")+\" aren't known yet.\":\"\"));\n\
}\n\
function showHosts(hosts){\n\
const list=$(\"hosts\"),room=unfolded?hosts.length:matchMedia(\"(max-width: 48rem)\").matches?3:8,beyond=hosts.length - room;\n\
const top=hosts.slice(0,room).map(([key,h])=>[key,SIGNS[7]+\" \"+key+\": \"+many(h.n,\"participant\")+\" failing for \"+age(h.since)+\", \"+h.came,h.mild?\"late\":\"vain\"]);\n\
if(beyond>0)top.push([\"\",\"and \"+beyond+\" more\",\"\"]);\n\
while(list.children.length>top.length)list.lastChild.remove();\n\
top.forEach(([key,words,kind],i)=>{\n\
const it=(list.children[i]||list.appendChild(make(\"li\",\"\",button(\"\",\"\",pick)))).firstChild;\n\
it.of=key;\n\
put(it,words);\n\
if(it.className!==kind)it.className=kind;\n\
});\n\
}\n\
function pick(event){\n\
if(event.target.of){status=\"vain\";$(\"text\").value=event.target.of;}else unfolded=true;\n\
draw();\n\
}\n\
function chip(key,text,n){\n\
const it=$(\"chip\"+key)||$(\"chips\").appendChild(button(\"\",key===\"vain\"||failed(key)?\"vain\":\"\",()=>{status=status===key?\"\":key;draw();}));\n\
it.id=\"chip\"+key;\n\
put(it,text+\" \"+n);\n\
it.hidden=!n&&key&&status!==key;\n\
aria(it,\"pressed\",status===key);\n\
}\n\
function toggle(id,go){\n\
opened=opened===id&&!go?null:id;\n\
if(go)status=$(\"text\").value=\"\";\n\
history.replaceState(null,\"\",\"#\"+(opened||\"\"));\n\
draw();\n\
if(opened)learn(opened).then(draw,()=>{});\n\
if(go){rows.get(id)?.scrollIntoView({block:\"nearest\"});rows.get(id)?.key.focus();}\n\
}\n\
\n\
const root=it=>lras.has(it.parent)?root(lras.get(it.parent)):it;\n\
function details(box,it){\n\
const info=infos.get(it.lra)?.body,sign=JSON.stringify([info,it.status,root(it).status]),spot=b=>b.textContent+b.closest(\"tr\")?.rowIndex;\n\
if(box.sign!==sign){\n\
const old=box.contains(document.activeElement)&&spot(document.activeElement);\n\
box.sign=sign;\n\
box.cells=new Map();\n\
box.replaceChildren(...info?[facts(it,info),table(box,it,info)]:[\"Asking ..\"]);\n\
for(const b of box.querySelectorAll(\"button\"))if(spot(b)===old)b.focus({preventScroll:true});\n\
}\n\
for(const[m,{called,said,words}]of box.cells){\n\
const mine=(calls.get(it.lra)||[]).filter(c=>c.member===m),kind=mine.length&&mine.every(mild)?\"late\":\"vain\";\n\
put(said,words||(mine.length?\"none that counts\":\"no answer yet\"));\n\
put(called,mine.map(c=>c.kind+\": \"+vain(c)).join(\". \"));\n\
if(called.className!==kind)called.className=kind;\n\
}\n\
}\n\
function facts(it,info){\n\
const p=make(\"p\"),[of]=info.purge.split(\" \"),isHere=home(it.lra)===node.node;\n\
if(info.parent)p.append(\"Nested in \",link(info.parent),\". \");\n\
p.append(info.decision?\"Decided: \"+info.decision+\". \":it.status===\"Active\"?\"Neither closed nor cancelled yet. \":\"It follows the LRA in which it is nested. \");\n\
if(info.deadline)p.append(\"Deadline: \"+new Date(info.deadline).toLocaleString()+\". \");\n\
p.append(\"Purge: \"+(of===\"E4\"?\"at node \"+home(it.lra):PURGES[of]||info.purge)+(of===\"E10\"||of===\"E24\"?\" (\"+info.purge+\")\":\"\")+(of===\"due\"&&!isHere?\", at node \"+home(it.lra):\"\")+\". \");\n\
if(it.status===\"Active\")p.append(isHere?button(\"Cancel\",\"\",()=>ask(\"Cancel \"+name(it.lra)+\"?\",\"All participants of it and of the LRAs nested in it are called to compensate. Later calls for it are refused. This can't be undone.\",\"Cancel the LRA\",\"PUT\",\"/lra/\"+it.lra+\"/cancel\"),\"Cancel \"+name(it.lra)):\"Cancel it on the page of node \"+home(it.lra)+\". \");\n\
if(of===\"due\"&&isHere)p.append(button(\"Purge\",\"\",()=>ask(\"Purge \"+name(it.lra)+\"?\",\"This deletes the LRA and all that is nested in it, at every node. Requests for it are answered E3 NotHeld from then on.\",\"Purge\",\"DELETE\",\"/lra/\"+it.lra),\"Purge \"+name(it.lra)));\n\
return p;\n\
}\n\
const link=id=>button(name(id),\"link\",()=>toggle(id,true),\"LRA \"+name(id));\n\
const heads=(scope,text)=>Object.assign(make(\"th\",\"\",text),{scope});\n\
function table(box,it,info){\n\
const body=make(\"tbody\");\n\
for(const m of info.members){\n\
const tr=body.appendChild(make(\"tr\",\"\",heads(\"row\",m.member))),wide=make(\"td\");\n\
wide.colSpan=4;\n\
if(m.kind===\"lra\")wide.append(\"nested: \",link(m.lra),\" \",...lras.has(m.lra)?[dress(make(\"span\"),lras.get(m.lra).status)]:[]);\n\
if(m.kind===\"left\")wide.append(\"left\");\n\
if(!m.links){tr.append(wide);continue;}\n\
const said=make(\"span\"),called=make(\"div\",\"vain\"),words=[[\"complete: \",m.completed],[\"compensate: \",m.compensated],[\"forgot\",m.forgotten],[\"notified\",m.told]].filter(s=>s[1]).map(s=>s[0]+(s[1]===true?\"\":s[1])).join(\", \");\n\
box.cells.set(m.member,{called,said,words});\n\
tr.append(make(\"td\",\"\",dress(make(\"span\"),m.status)),make(\"td\",\"\",said,called),\n\
make(\"td\",\"\",...Object.entries(m.links).filter(l=>l[1]).map(l=>make(\"div\",\"\",l[0]+\" \"+l[1]))),make(\"td\",\"\",...deeds(it,m)));\n\
}\n\
const head=[\"Member\",\"Status\",\"Answers that count\",\"Links\",\"Answer for it\"].map(t=>heads(\"col\",t));\n\
return make(\"table\",\"\",make(\"caption\",\"\",\"Members of \"+name(it.lra)),make(\"thead\",\"\",make(\"tr\",\"\",...head)),body);\n\
}\n\
function deeds(it,m){\n\
const path=\"/lra/\"+it.lra+\"/member/\"+m.member+\"/\",who=\"member \"+m.member+\" of \"+name(it.lra),top=root(it).status,list=[];\n\
const add=(text,title,does,end,body)=>list.push(button(text,\"\",()=>ask(title,\"You answer for \"+host(linkOf(m))+\", which won't be called for that any more. \"+does+\" This can't be undone.\",text,\"PUT\",path+end,body),text+\": member \"+m.member+\" at \"+host(linkOf(m))+\" of \"+name(it.lra)));\n\
if(open(m.status)){\n\
const act=m.status===\"Completing\"?\"complete\":\"compensate\";\n\
add(\"Report done\",\"Has \"+who+\" \"+act+\"d?\",\"The LRA goes on as if it had.\",\"report\",{act,outcome:\"done\"});\n\
add(\"Report failed\",\"Did \"+who+\" fail to \"+act+\"?\",\"The LRA ends as FailedTo\"+(act===\"complete\"?\"Close.\":\"Cancel.\"),\"report\",{act,outcome:\"failed\"});\n\
}\n\
if(ended(it.status)&&ended(top)&&m.links.forget&&!m.forgotten&&(failed(m.status)||m.status===\"Completed\"&&it.parent))\n\
add(\"It has forgotten\",\"Has \"+who+\" forgotten this LRA?\",\"The purge no longer waits for it.\",\"forgot\");\n\
if(ended(it.status)&&m.links.after&&!m.told&&(top!==\"Active\"||it.status.includes(\"Cancel\")))\n\
add(\"It was notified\",\"Was \"+who+\" notified?\",\"It counts as notified that this LRA is \"+it.status+\", and the purge no longer waits for it.\",\"told\");\n\
return list;\n\
}\n\
function ask(title,does,yes,method,path,body){\n\
for(const[id,text]of Object.entries({what:title,does,yes,no:\"Leave it\",came:\"\",call:method+\" \"+path+(body?\" \"+JSON.stringify(body):\"\")}))put($(id),text);\n\
$(\"yes\").hidden=$(\"yes\").disabled=false;\n\
$(\"yes\").onclick=async()=>{\n\
$(\"yes\").disabled=true;\n\
try{\n\
const answer=await fetch(path,{method,body:JSON.stringify(body),signal:AbortSignal.timeout(20000)});\n\
if(answer.ok){\n\
$(\"ask\").close();\n\
put($(\"note\"),\"Done: \"+method+\" \"+path);\n\
setTimeout(()=>put($(\"note\"),\"\"),8000);\n\
return hold(false);\n\
}\n\
put($(\"came\"),\"Refused: \"+((await answer.json()).refused||answer.status));\n\
}catch(error){put($(\"came\"),\"No complete answer came: \"+error.message+\". The call may have been carried out.\");}\n\
$(\"yes\").hidden=true;\n\
put($(\"no\"),\"Close\");\n\
};\n\
$(\"ask\").showModal();\n\
$(\"no\").focus();\n\
}\n\
$(\"no\").onclick=()=>$(\"ask\").close();\n\
$(\"text\").oninput=draw;\n\
function hold(is){held=is;aria($(\"hold\"),\"pressed\",is);draw();wake();}\n\
$(\"hold\").onclick=()=>hold(!held);\n\
document.onvisibilitychange=()=>wake();\n\
document.onkeydown=event=>{\n\
if($(\"ask\").open||event.ctrlKey||event.metaKey||event.altKey)return;\n\
const typing=event.target===$(\"text\"),keys=[...document.querySelectorAll(\".name\")],here=document.activeElement.closest(\"#list > li\")?.key;\n\
const step=event.key===\"ArrowDown\"||!typing&&event.key===\"j\"?1:!typing&&(event.key===\"ArrowUp\"||event.key===\"k\")?-1:0;\n\
if(step)keys[Math.max(0,Math.min(keys.length - 1,here?keys.indexOf(here)+step:0))]?.focus();\n\
else if(event.key===\"/\"&&!typing)$(\"text\").focus();\n\
else if(event.key===\"Escape\"&&typing){$(\"text\").value=\"\";$(\"text\").blur();draw();}\n\
else if(event.key===\"Escape\"&&opened){const it=rows.get(opened);toggle(opened);it?.key.focus();}\n\
else return;\n\
event.preventDefault();\n\
};\n\
if(location.hash.length===37)opened=location.hash.slice(1);\n\
run();\n\
</script></body></html>\n\
";
